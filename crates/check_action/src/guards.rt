//! Guards.
#![tactic(auto, using(check_stmt::proofs::Said::said_none, check_stmt::proofs::Said::said_on, check_stmt::proofs::Said::said_next))]

ghost use Rattle.const_env.specs.Counting.{names_view};
ghost use Rattle.cal_check.specs.Actions.{each_guard, guard_allowed};
ghost use Rattle.cal_check.specs.Violations.{all_broken, said};
ghost use Rattle.check_member.specs.Parts.{exprs_tree};
ghost use Rattle.check_stmt.specs.Judging.{Checks};

use crate::fault::as_kind_fault;
use cal_ast::{Action, Expr};
use check_member::check_guards;
use check_stmt::test;
use const_eval::{KindFault, Names};

/// That each guard is a truth value. What isn't constant is passed over if `passes`.
pub(crate) fn guards(names: &Names, guards: &[Expr], passes: bool) -> Result<(), KindFault>
    ensures { Checks result (said passes
        (all_broken (each_guard (exprs_tree guards.now) (names_view names.now)))) }
{
    let mut rest = guards;
    'guards: while let Some((first, others)) = rest.split_first() {
        test(names, first, passes)?;
        rest = others;
    }
    Ok(())
}

/// That an `initialize` has no guard.
#[tactic(auto, using(crate::proofs::Judged::refuses_as))]
pub(crate) fn guards_allowed(a: &Action) -> Result<(), KindFault>
    ensures { Checks result
        (guard_allowed a.now.initialize (exprs_tree a.now.guards.items) a.now.at) }
{
    match check_guards(a) {
        Ok(()) => Ok(()),
        Err(f) => Err(as_kind_fault(f)),
    }
}
