//! What an expression of a network sees: the generators round it, and the declarations of the network.

ghost use Rattle.std.specs.Prelude.{◌≡◌};
ghost use Rattle.cal_ast.specs.View.{gen_tree};
ghost use Rattle.fnl_bind.specs.Library.{is_among};
ghost use Rattle.fnl_bind.specs.Scopes.{gen_name, inside_gens};
ghost use Rattle.fnl_scopes.specs.View.{counters, gens_tree, local_names, names_seen};

use crate::name_set::NameSet;
use cal_ast::Gen;

/// Generators of a comprehension, and those outside it.
#[derive(Clone, Copy, Drop)]
pub(crate) struct Frame<'a> {
    pub gens: &'a [Gen],
    /// The generators outside it, if it isn't the outermost.
    pub outer: Option<&'a Frame<'a>>,
}

/// What an expression sees: the generators round it, the innermost first, and the declarations of its network.
#[derive(Clone, Copy)]
pub(crate) struct Inside<'a> {
    pub declared: &'a NameSet,
    /// The innermost generators round it, if it stands in a comprehension.
    pub frame: Option<&'a Frame<'a>>,
}

impl<'a> Inside<'a> {
    ghost use Rattle.fnl_scopes.specs.declared.frames.Frame.{out-Frame};

    /// What an expression sees that stands in no comprehension.
    pub fn outermost(declared: &'a NameSet) -> Inside<'a>
        ensures { names_seen result ≡ declared.now }
    {
        Inside {
            declared,
            frame: None,
        }
    }

    /// What is seen inside generators that stand inside those that are seen here.
    pub fn under<'b>(&self, frame: &'b Frame<'b>) -> Inside<'b>
    where
        'a: 'b,
        requires { local_names (out-Frame frame.now).outer ≡ local_names self.now.frame }
        ensures { names_seen result
            ≡ inside_gens (gens_tree (out-Frame frame.now).gens.now) (names_seen self.now) }
    {
        Inside {
            declared: self.declared,
            frame: Some(frame),
        }
    }

    /// Whether a name is declared here: by a generator, or by the network.
    pub fn has(&self, name: &str) -> bool
        ensures { result ≡ is_among name.now (names_seen self.now) }
    {
        is_local(name, self.frame) || self.declared.has(name)
    }
}

/// Whether a generator round an expression has the name.
fn is_local<'a>(name: &str, frame: Option<&'a Frame<'a>>) -> bool
    ensures { result ≡ is_among name.now (local_names frame.entry) }
{
    let mut at = frame;
    'outwards: while let Some(here) = at {
        if is_counter(name, here.gens) {
            return true;
        }
        at = here.outer;
    }
    false
}

/// Whether one of these generators has the name.
fn is_counter(name: &str, gens: &[Gen]) -> bool
    ensures { result ≡ is_among name.now (counters gens.now) }
{
    let mut rest = gens;
    'backwards: while let Some((last, others)) = rest.split_last() {
        if counter_name(last) == name {
            return true;
        }
        rest = others;
    }
    false
}

/// The name of a generator's variable.
fn counter_name(g: &Gen) -> &str
    ensures { result.now ≡ gen_name (gen_tree g.now) }
{
    g.name.text.as_str()
}
