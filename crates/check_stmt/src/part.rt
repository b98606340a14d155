//! Expressions and types whose kind is asked for.
#![tactic(auto, using(crate::proofs::Judged::breaks_on, crate::proofs::Said::said_none))]

ghost use Rattle.std.specs.Prelude.{◌≡◌, ◌≤◌, List, length};
ghost use Rattle.cal_ast.specs.Places.{begins};
ghost use Rattle.cal_ast.specs.View.{expr_tree, type_tree};
ghost use Rattle.cal_model.specs.Value.{NumKind};
ghost use Rattle.cal_model.specs.View.{kind_view};
ghost use Rattle.const_env.specs.Counting.{names_view};
ghost use Rattle.const_env.specs.Judging.{Judges};
ghost use Rattle.cal_check.specs.Constants.{stored_kind};
ghost use Rattle.cal_check.specs.Statements.{counter_judged, test_judged};
ghost use Rattle.cal_check.specs.Violations.{Violation, broken, said};
ghost use Rattle.check_stmt.specs.Judging.{Checks, Refuses, is_passed};

use cal_ast::{Expr, TypeExpr};
use cal_model::{Kind, Shape};
use const_eval::{KindFault, Names, counts, kind, one_kind, type_judged};
use rvc_base::Rule;

/// The offset at which an expression begins.
fn place_of(e: &Expr) -> u32
    ensures { result ≡ begins (expr_tree e.now) }
{
    e.at
}

/// The offset at which a type begins.
fn place_of_type(t: &TypeExpr) -> u32
    ensures { result ≡ begins (type_tree t.now) }
{
    t.at
}

/// That an expression's value may be stored as one of a kind.
///
/// # Errors
///
/// `Broken`: the first rule that the expression breaks, or T1 or T5 at it if its kind is another one. `Memory` if memory
/// runs out.
pub fn stored(names: &Names, k: &Kind, e: &Expr) -> Result<(), KindFault>
    ensures { Judges (λ _. kind_view k.now) result
        (stored_kind (kind_view k.now) (expr_tree e.now) (names_view names.now)) }
{
    let found = kind(names, e)?;
    one_kind(k, &found, place_of(e))
}

/// Whether a fault is that something isn't constant, and `passes` says that this is passed over.
pub fn is_passed(fault: KindFault, passes: bool) -> bool
    ensures { result ≡ is_passed passes fault }
{
    match fault {
        KindFault::Broken { rule, .. } => passes && rule.0 == Rule::NOT_CONSTANT.0,
        KindFault::Memory => false,
    }
}

/// What is left of a fault: nothing if it is that something isn't constant, and `passes` says that this is passed over.
#[tactic(auto, using(crate::proofs::Said::passed_over, crate::proofs::Said::passed_on))]
pub fn passed(fault: KindFault, passes: bool) -> Result<(), KindFault>
    ensures { (vs : List Violation) → length vs ≤ 1 → Refuses fault vs
        → Checks result (said passes vs) }
{
    match fault {
        KindFault::Broken { rule, at } => {
            if passes && rule.0 == Rule::NOT_CONSTANT.0 {
                return Ok(());
            }
            Err(KindFault::Broken { rule, at })
        }
        KindFault::Memory => Err(KindFault::Memory),
    }
}

/// That an expression's value may be stored as one of a kind. What isn't constant is passed over if `passes`.
///
/// # Errors
///
/// As those of [`stored`].
pub fn check_stored(names: &Names, k: &Kind, e: &Expr, passes: bool) -> Result<(), KindFault>
    ensures { Checks result (said passes
        (broken (stored_kind (kind_view k.now) (expr_tree e.now) (names_view names.now)))) }
{
    match stored(names, k, e) {
        Ok(()) => Ok(()),
        Err(fault) => passed(fault, passes),
    }
}

/// That a test is a truth value. What isn't constant is passed over if `passes`.
///
/// # Errors
///
/// As those of [`stored`].
pub fn test(names: &Names, e: &Expr, passes: bool) -> Result<(), KindFault>
    ensures { Checks result (said passes
        (broken (test_judged (expr_tree e.now) (names_view names.now)))) }
{
    check_stored(names, &Kind::Bool, e, passes)
}

/// That an expression is a number.
pub(crate) fn number(names: &Names, e: &Expr, passes: bool) -> Result<(), KindFault>
    ensures { Checks result (said passes
        (broken (stored_kind NumKind (expr_tree e.now) (names_view names.now)))) }
{
    check_stored(names, &Kind::Num, e, passes)
}

/// That the variable of a loop has a number type.
fn first_counter(names: &Names, shape: &TypeExpr) -> Result<(), KindFault>
    ensures { Checks result (broken (counter_judged (type_tree shape.now) (names_view names.now))) }
{
    let t = type_judged(names, shape)?;
    counts(&t, place_of_type(shape))
}

/// The same. What isn't constant is passed over if `passes`.
pub(crate) fn counter(names: &Names, shape: &TypeExpr, passes: bool) -> Result<(), KindFault>
    ensures { Checks result (said passes
        (broken (counter_judged (type_tree shape.now) (names_view names.now)))) }
{
    match first_counter(names, shape) {
        Ok(()) => Ok(()),
        Err(fault) => passed(fault, passes),
    }
}
