//! Types and kinds over what is declared before.

ghost use Rattle.cal_ast.specs.View.{expr_tree, type_tree};
ghost use Rattle.std.specs.Prelude.{◌≡◌};
ghost use Rattle.cal_model.specs.Value.{Kind as KindOf, Shape as ShapeOf};
ghost use Rattle.cal_model.specs.Kinding.{Judged};
ghost use Rattle.cal_model.specs.View.{kind_view, shape_view};
ghost use Rattle.const_env.specs.Counting.{names_view};
ghost use Rattle.const_env.specs.Judging.{Breaks, Judges};
ghost use Rattle.cal_check.specs.Constants.{early_kind, early_type, not_yet};
ghost use Rattle.check_variable.specs.Finding.{not_yet_at};

use crate::finding::{in_expr, in_type, place_of, place_of_type};
use cal_ast::{Expr, TypeExpr};
use cal_model::{Kind, Shape};
use check_stmt::stored;
use const_eval::{KindFault, Names, type_judged};
use rvc_base::Rule;

/// The type of what is declared, over what is declared before it.
///
/// # Errors
///
/// `Broken`: the first rule that the type breaks. If a name isn't known yet, that is T9 at the innermost expression
/// that must be constant and uses it. `Memory` if memory runs out.
pub fn early_type(names: &Names, t: &TypeExpr) -> Result<Shape, KindFault>
    ensures { Judges shape_view result (early_type (type_tree t.now) (names_view names.now)) }
{
    match type_judged(names, t) {
        Ok(shape) => Ok(shape),
        Err(f) => Err(type_not_yet(f, t)),
    }
}

/// That a start may be stored as one of a kind, over what is declared before it.
///
/// # Errors
///
/// `Broken`: the first rule that the start breaks, or T1 or T5 at it if its kind is another one. If a name isn't known
/// yet, that is T9 at the innermost expression that must be constant and uses it, which may be the whole. `Memory` if
/// memory runs out.
pub fn early_kind(names: &Names, k: &Kind, e: &Expr) -> Result<(), KindFault>
    ensures { Judges (λ _. kind_view k.now) result
        (early_kind (kind_view k.now) (expr_tree e.now) (names_view names.now)) }
{
    match stored(names, k, e) {
        Ok(()) => Ok(()),
        Err(f) => Err(start_not_yet(f, e)),
    }
}

/// A fault of a type, of which a name may not be known yet.
#[tactic(auto, using(crate::proofs::NamePlaces::breaks_not_yet))]
fn type_not_yet(f: KindFault, t: &TypeExpr) -> KindFault
    ensures { (j : Judged ShapeOf) → Breaks f j → Breaks result (not_yet j (type_tree t.now)) }
{
    match f {
        KindFault::Broken { rule, at } => {
            let place = in_type(at, t).or_at(place_of_type(t));
            later_or(rule, at, place)
        }
        KindFault::Memory => KindFault::Memory,
    }
}

/// A fault of a start, of which a name may not be known yet.
#[tactic(auto, using(crate::proofs::NamePlaces::breaks_not_yet))]
fn start_not_yet(f: KindFault, e: &Expr) -> KindFault
    ensures { (j : Judged KindOf) → Breaks f j → Breaks result (not_yet j (expr_tree e.now)) }
{
    match f {
        KindFault::Broken { rule, at } => {
            let place = in_expr(at, e).or_at(place_of(e));
            later_or(rule, at, place)
        }
        KindFault::Memory => KindFault::Memory,
    }
}

/// A rule that is broken, or, if it is that of unknown names, that of what isn't constant, at another place.
fn later_or(rule: Rule, at: u32, place: u32) -> KindFault
    ensures { result ≡ not_yet_at rule at place }
{
    if rule.0 == Rule::UNKNOWN_NAME.0 {
        return KindFault::Broken {
            rule: Rule::NOT_CONSTANT,
            at: place,
        };
    }
    KindFault::Broken { rule, at }
}
