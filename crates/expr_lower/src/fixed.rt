//! Items of named lists at places that are written out.

ghost use Rattle.std.specs.Prelude.{◌≡◌, ℕ, IfSome};
ghost use Rattle.std.specs.Prelude.{None, Some};
ghost use Rattle.cal_ast.specs.View.{expr_tree};
ghost use Rattle.lower_base.specs.Seen.{seen};
ghost use Rattle.lower_base.specs.Words.{index_of};
ghost use Rattle.expr_lower.specs.FixedItems.{IsFixed, fixed_offset, number_instr};

use crate::bounds::bound_of;
use cal_ast::{Expr, ExprForm};
use code_ir::Instr;
use lower_base::{Scope, Seat, deep_item_named, rows_named};

/// The instruction that reads a single value of a named list, if its places are written out and lie within their lists.
pub(crate) fn fixed_item(scope: &Scope, base: &Expr, place: &Expr) -> Option<Instr>
    ensures fixed { (at : ℕ) → IfSome result
        (IsFixed (seen scope.now) (index_of base.now place.now at)) }
{
    let list = deep_item_named(scope, base)?;
    let offset = item_offset(scope, base, place)?;
    number_instr(list.seat, offset)
}

/// The offset of an item in the whole list.
#[cycle(fixed_offset)]
fn item_offset(scope: &Scope, base: &Expr, place: &Expr) -> Option<u32>
    ensures at { IfSome result
        (λ k. fixed_offset (seen scope.now) (index_of base.now place.now 0) ≡ Some k) }
{
    let rows = rows_named(scope, base)?;
    let list = fixed_offset(scope, base)?;
    let place = u32::try_from(bound_of(place)?).ok()?;
    if place >= rows.count {
        return None;
    }
    list.checked_add(place.checked_mul(rows.each)?)
}

/// The offset of the part that a chain of indexes gives.
#[cycle(fixed_offset)]
fn fixed_offset(scope: &Scope, e: &Expr) -> Option<u32>
    ensures at { IfSome result
        (λ k. fixed_offset (seen scope.now) (expr_tree e.now) ≡ Some k) }
{
    match &e.form {
        ExprForm::Name(_) => Some(0),
        ExprForm::Index { base, place } => item_offset(scope, base, place),
        _ => None,
    }
}

/// The instruction that pushes a number of what stands at a seat.
fn number_instr(seat: Seat, offset: u32) -> Option<Instr>
    ensures is { IfSome result (λ instr. instr ≡ number_instr seat offset) }
{
    match seat {
        Seat::Cell(first) => Some(Instr::Load(first.checked_add(offset)?)),
        Seat::Tokens { port, first, step } => {
            Some(Instr::Token(port, first.checked_add(offset.checked_mul(step)?)?))
        }
    }
}
