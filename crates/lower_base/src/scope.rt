//! What a part sees: the locals round it, and the names outside them.

ghost use Rattle.std.specs.Prelude.{◌≡◌, ◌∷◌, IfNone, IfSome};
ghost use Rattle.lower_base.specs.Callees.{functions_view};
ghost use Rattle.lower_base.specs.Names.{names_view};
ghost use Rattle.lower_base.specs.Seen.{IsHidden, IsNotLocal, called, local_in, local_name, locals_of, seen};

use crate::callees::Callee;
use crate::names::Named;
use cal_model::Shape;

/// A local, whose value stands in the cells from one on, and the locals outside it.
#[derive(Clone, Copy, Drop)]
pub struct Frame<'a> {
    pub name: &'a str,
    pub shape: &'a Shape,
    pub cell: u32,
    /// The local outside it, if one stands there.
    pub outer: Option<&'a Frame<'a>>,
}

/// Where the value of a local stands, and its type.
#[derive(Clone, Copy)]
pub(crate) struct Local<'a> {
    pub shape: &'a Shape,
    pub cell: u32,
}

/// What a part sees: names, and the locals that hide them.
#[derive(Clone, Copy)]
pub struct Scope<'a> {
    pub names: &'a [Named],
    /// The functions that may be called.
    pub callees: &'a [Callee],
    /// The innermost local, if one stands there.
    pub frame: Option<&'a Frame<'a>>,
}

impl<'a> Scope<'a> {
    ghost use Rattle.lower_base.specs.declared.scope.Frame.{out-Frame};

    /// What a part sees round which no locals stand.
    pub fn outermost(names: &'a [Named], callees: &'a [Callee]) -> Scope<'a>
        ensures names { seen result ≡ names_view names.entry.now }
        ensures callees { called result ≡ functions_view callees.entry.now }
    {
        Scope {
            names,
            callees,
            frame: None,
        }
    }

    /// What is seen inside one local more, which stands inside those that are seen here.
    pub fn under<'b>(&self, frame: &'b Frame<'b>) -> Scope<'b>
    where
        'a: 'b,
        requires { locals_of (out-Frame frame.now).outer ≡ locals_of self.now.frame }
        ensures names { seen result ≡ local_in (out-Frame frame.now) ∷ seen self.now }
        ensures callees { called result ≡ called self.now }
    {
        Scope {
            names: self.names,
            callees: self.callees,
            frame: Some(frame),
        }
    }
}

/// The local that a text means, if it means one.
pub(crate) fn local_named<'a>(text: &str, frame: Option<&'a Frame<'a>>) -> Option<Local<'a>>
    ensures hidden { IfSome result
        (λ x. IsHidden text.now (locals_of frame.entry) (local_name text.now x)) }
    ensures outside { IfNone result (IsNotLocal text.now (locals_of frame.entry)) }
{
    let mut at = frame;
    'outwards: while let Some(here) = at {
        if here.name == text {
            return Some(Local {
                shape: here.shape,
                cell: here.cell,
            });
        }
        at = here.outer;
    }
    None
}
