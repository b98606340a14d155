//! Procedures.

ghost use Rattle.std.specs.Prelude.{map};
ghost use Rattle.cal_ast.specs.View.{procedure_tree};
ghost use Rattle.cal_model.specs.View.{proc_view};
ghost use Rattle.const_env.specs.Counting.{names_view};
ghost use Rattle.cal_check.specs.Routines.{proc_broken, proc_inside};
ghost use Rattle.cal_check.specs.Violations.{said};
ghost use Rattle.check_stmt.specs.Judging.{Checks};
ghost use Rattle.check_routine.specs.Heads.{AreSeen, formals_view};

use crate::formal::{FoundFormals, formals};
use cal_ast::Procedure;
use check_stmt::{Procs, block};
use const_eval::{Inside, KindFault, Names};

/// What is inside a procedure: its locals and its statements, which may call these procedures. Nothing is said of it if
/// its formals break a rule. What isn't constant is passed over if `passes`.
///
/// # Errors
///
/// `Broken` if a local or a statement breaks a rule: one of those that are broken, and its place. `Memory` if memory
/// runs out.
#[tactic(auto, using(check_stmt::proofs::Said::said_none))]
pub fn check_procedure(
    names: &Names,
    procs: &Procs,
    p: &Procedure,
    passes: bool,
) -> Result<(), KindFault>
    ensures { Checks result (said passes
        (proc_broken (procedure_tree p.now) (map proc_view procs.now) (names_view names.now))) }
{
    match formals(names, &p.formals) {
        Ok(formals) => inside(names, procs, &formals, p, passes),
        Err(KindFault::Broken { .. }) => Ok(()),
        Err(KindFault::Memory) => Err(KindFault::Memory),
    }
}

/// What is inside a procedure of these formals.
fn inside(
    names: &Names,
    procs: &Procs,
    formals: &FoundFormals,
    p: &Procedure,
    passes: bool,
) -> Result<(), KindFault>
    requires { AreSeen formals.now names.now }
    ensures { Checks result (said passes (proc_inside (procedure_tree p.now)
        (map proc_view procs.now) (names_view names.now) (formals_view formals.now))) }
{
    let inside = Inside {
        variables: Some(&formals.seen),
        gens: &[],
        outer: names.inner,
    };
    block(&names.under(&inside), procs, &p.vars, &p.body, passes)
}
