//! Constant expressions by their numbers.

ghost use Rattle.std.specs.Prelude.{◌≡◌, IfOk};
ghost use Rattle.cal_ast.specs.Places.{begins};
ghost use Rattle.cal_ast.specs.View.{expr_tree};
ghost use Rattle.cal_check.specs.Written.{constant_written, number_tree};
ghost use Rattle.const_env.specs.Counting.{names_view};
ghost use Rattle.rvc_base.specs.Width.{least_num};

use crate::made;
use cal_ast::{BinOp, Expr, PrefixOp};
use const_eval::{KindFault, Names, constant_number};
use rvc_base::{Memory, Num};
use std::alloc::Global;

/// A constant expression as its number, or as it is if it has none.
pub(crate) fn constant(names: &Names, e: &Expr) -> Result<Expr, Memory>
    ensures { IfOk result (λ found. expr_tree found
        ≡ constant_written (expr_tree e.now) (names_view names.now)) }
{
    match constant_number(names, e) {
        Ok(number) => number_expr(names.alloc, number, place_of(e)),
        Err(KindFault::Broken { .. }) => Ok(e.copy(names.alloc)?),
        Err(KindFault::Memory) => Err(Memory),
    }
}

/// The offset at which an expression begins.
fn place_of(e: &Expr) -> u32
    ensures { result ≡ begins (expr_tree e.now) }
{
    e.at
}

/// A number, with `-` before it if it is below 0.
fn number_expr(alloc: Global, number: Num, at: u32) -> Result<Expr, Memory>
    ensures { IfOk result (λ e. expr_tree e ≡ number_tree number at) }
{
    if number == Num::MIN {
        return least_number(alloc, at);
    }
    let digits = made::number(number.unsigned_abs(), at);
    if number < 0 {
        return made::prefix(alloc, PrefixOp::Neg, digits, at);
    }
    Ok(digits)
}

/// The least number, which isn't `-` before a number: the one above it, and 1 less.
fn least_number(alloc: Global, at: u32) -> Result<Expr, Memory>
    ensures { IfOk result (λ e. expr_tree e ≡ number_tree least_num at) }
{
    let greatest = made::number(Num::MAX.unsigned_abs(), at);
    let above = made::prefix(alloc, PrefixOp::Neg, greatest, at)?;
    made::binary(alloc, BinOp::Sub, above, made::number(1, at), at)
}
