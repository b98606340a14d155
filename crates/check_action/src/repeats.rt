//! How often patterns and outputs are repeated.
#![tactic(auto, using(crate::proofs::Judged::breaks_on, crate::proofs::Judged::breaks_as))]

ghost use Rattle.std.specs.Prelude.{Some};
ghost use Rattle.cal_ast.specs.View.{expr_tree, optional_expr};
ghost use Rattle.cal_model.specs.Kinding.{and_so, constant_number, kind};
ghost use Rattle.const_env.specs.Counting.{names_view};
ghost use Rattle.const_env.specs.Judging.{Judges};
ghost use Rattle.cal_check.specs.Actions.{rate_judged, repeat_judged, repeat_of};

use crate::fault::as_kind_fault;
use cal_ast::Expr;
use check_member::{check_rate, repeat_of};
use const_eval::{KindFault, Names, constant_number};
use rvc_base::Num;

/// How often what begins at an offset is repeated, if it is.
pub(crate) fn repeat(
    names: &Names,
    repeat: &Option<Expr>,
    at: u32,
) -> Result<Option<u32>, KindFault>
    ensures { Judges (λ n. n) result
        (repeat_judged (optional_expr repeat.now) at (names_view names.now)) }
{
    match repeat {
        Some(e) => Ok(Some(counted(names, e, at)?)),
        None => Ok(None),
    }
}

/// The number of a repeat.
fn counted(names: &Names, e: &Expr, at: u32) -> Result<u32, KindFault>
    ensures { Judges Some result (and_so
        (constant_number (kind (expr_tree e.now) (names_view names.now)) (expr_tree e.now)
        (names_view names.now)) (λ z. repeat_of z at)) }
{
    let number = constant_number(names, e)?;
    times(number, at)
}

/// A number as that of a repeat.
fn times(number: Num, at: u32) -> Result<u32, KindFault>
    ensures { Judges Some result (repeat_of number at) }
{
    match repeat_of(number, at) {
        Ok(times) => Ok(times),
        Err(f) => Err(as_kind_fault(f)),
    }
}

/// That so many names or values, as often as they are repeated, aren't too many tokens.
pub(crate) fn rate(parts: usize, repeat: Option<u32>, at: u32) -> Result<(), KindFault>
    ensures { Judges (λ u. u) result (rate_judged parts repeat tt at) }
{
    match check_rate(parts, repeat, at) {
        Ok(()) => Ok(()),
        Err(f) => Err(as_kind_fault(f)),
    }
}
