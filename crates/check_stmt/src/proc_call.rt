//! Calls of procedures.
#![tactic(auto, using(crate::proofs::Judged::breaks_on))]

ghost use Rattle.std.specs.Prelude.{map};
ghost use Rattle.cal_ast.specs.Tree.{listed};
ghost use Rattle.cal_ast.specs.View.{expr_tree};
ghost use Rattle.cal_model.specs.Statement.{proc_named};
ghost use Rattle.cal_model.specs.View.{proc_view};
ghost use Rattle.const_env.specs.Counting.{names_view};
ghost use Rattle.cal_check.specs.Statements.{call_judged};
ghost use Rattle.cal_check.specs.Violations.{broken, said};
ghost use Rattle.check_stmt.specs.Judging.{Checks};

use crate::part::passed;
use crate::procs::Procs;
use cal_ast::Expr;
use const_eval::{KindFault, Names, arguments_fit};
use rvc_base::Rule;

/// A call of a procedure. What isn't constant is passed over if `passes`.
#[tactic(auto, using(crate::proofs::Said::said_none))]
pub(crate) fn call(
    names: &Names,
    procs: &Procs,
    name: &str,
    args: &[Expr],
    at: u32,
    passes: bool,
) -> Result<(), KindFault>
    ensures { Checks result (said passes (broken (call_judged
        (proc_named name.now (map proc_view procs.now)) (listed (map expr_tree args.now)) at
        (names_view names.now)))) }
{
    match first_call(names, procs, name, args, at) {
        Ok(()) => Ok(()),
        Err(fault) => passed(fault, passes),
    }
}

/// A call of a procedure.
fn first_call(
    names: &Names,
    procs: &Procs,
    name: &str,
    args: &[Expr],
    at: u32,
) -> Result<(), KindFault>
    ensures { Checks result (broken (call_judged (proc_named name.now (map proc_view procs.now))
        (listed (map expr_tree args.now)) at (names_view names.now))) }
{
    let Some(proc) = procs.get(name) else {
        return Err(KindFault::Broken {
            rule: Rule::UNKNOWN_NAME,
            at,
        });
    };
    if arguments_fit(names, args, &proc.formals)? {
        return Ok(());
    }
    Err(KindFault::Broken {
        rule: Rule::WRONG_NUMBER_OF_ARGUMENTS,
        at,
    })
}
