//! Numbers as they are written.

ghost use Rattle.std.specs.Prelude.{◌≡◌, pos};
ghost use Rattle.std.specs.Prelude.{None, Some};
ghost use Rattle.rvc_base.specs.Arithmetic.{whole};
ghost use Rattle.cal_ast.specs.View.{expr_tree};
ghost use Rattle.lower_base.specs.Bounds.{bound_of, difference_of, number_given, opposite_of};

use cal_ast::{BinOp, Expr, ExprForm, PrefixOp};
use rvc_base::Num;
use rvc_base::arithmetic::{neg, sub};

/// The number that an expression is, if it is written by literals and `-` alone.
pub fn bound_of(e: &Expr) -> Option<Num>
    ensures { result ≡ bound_of (expr_tree e.now) }
{
    match &e.form {
        ExprForm::Number(value) => literal(*value),
        ExprForm::Paren(inner) => bound_of(inner),
        ExprForm::Prefix { op, of } => opposite(*op, bound_of(of)),
        ExprForm::Binary { op, left, right } => difference(*op, bound_of(left), bound_of(right)),
        _ => None,
    }
}

/// The number that a literal is.
fn literal(value: u128) -> Option<Num>
    ensures { result ≡ number_given (whole (pos value)) }
{
    match Num::try_from(value) {
        Ok(number) => Some(number),
        Err(_) => None,
    }
}

/// The number that a minus sign makes of another one.
fn opposite(op: PrefixOp, number: Option<Num>) -> Option<Num>
    ensures { result ≡ opposite_of op number }
{
    let number = number?;
    if op != PrefixOp::Neg {
        return None;
    }
    neg(number).ok()
}

/// The difference of two numbers.
fn difference(op: BinOp, left: Option<Num>, right: Option<Num>) -> Option<Num>
    ensures { result ≡ difference_of op left right }
{
    let left = left?;
    let right = right?;
    if op != BinOp::Sub {
        return None;
    }
    sub(left, right).ok()
}
