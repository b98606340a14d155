//! What a statement sees.

ghost use Rattle.std.specs.Prelude.{◌≡◌, ◌∷◌};
ghost use Rattle.lower_base.specs.Names.{names_view};
ghost use Rattle.lower_base.specs.Seen.{local_in, locals_of};
ghost use Rattle.lower_stmt.specs.Procedures.{routines_of};
ghost use Rattle.lower_stmt.specs.StmtSeen.{called, seen};

use crate::callees::ProcCallee;
use lower_base::{Callee, Frame, Named, Scope};

/// What a statement sees: what its expressions see, and the procedures that may be called.
#[derive(Clone, Copy)]
pub(crate) struct StmtScope<'a> {
    pub values: Scope<'a>,
    pub procedures: &'a [ProcCallee],
}

impl<'a> StmtScope<'a> {
    ghost use Rattle.lower_base.specs.declared.scope.Frame.{out-Frame};

    /// What a statement sees round which no locals stand.
    pub(crate) fn outermost(
        names: &'a [Named],
        callees: &'a [Callee],
        procedures: &'a [ProcCallee],
    ) -> StmtScope<'a>
        ensures names { seen result ≡ names_view names.entry.now }
        ensures routines { called result ≡ routines_of callees.entry.now procedures.entry.now }
    {
        StmtScope {
            values: Scope::outermost(names, callees),
            procedures,
        }
    }

    /// What is seen inside one local more, which stands inside those that are seen here.
    pub(crate) fn under<'b>(&self, frame: &'b Frame<'b>) -> StmtScope<'b>
    where
        'a: 'b,
        requires { locals_of (out-Frame frame.now).outer ≡ locals_of self.now.values.frame }
        ensures names { seen result ≡ local_in (out-Frame frame.now) ∷ seen self.now }
        ensures callees { called result ≡ called self.now }
    {
        StmtScope {
            values: self.values.under(frame),
            procedures: self.procedures,
        }
    }
}
