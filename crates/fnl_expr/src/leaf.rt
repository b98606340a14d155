//! Expressions that hold no others.

ghost use Rattle.std.specs.Prelude.{◌≡◌, IfOk, string_bytes};
ghost use Rattle.cal_ast.specs.Tree.{number, prefix, truth, variable};
ghost use Rattle.cal_ast.specs.declared.expr.PrefixOp.TheVariants as prefixes;
ghost use Rattle.fnl_expr.specs.Given.{literal_tree};
ghost use Rattle.fnl_expr.specs.Literals.{literal_of};
ghost use Rattle.fnl_expr.specs.Views.{tall_tree};

use crate::literal::Literal;
use crate::tall::MeasuredExpr;
use cal_ast::{Expr, ExprForm, PrefixOp};
use std::alloc::{AllocError, Global};

/// The expression that a literal at an offset is.
///
/// # Errors
///
/// An allocation was refused.
pub fn expr_of_literal(alloc: Global, literal: Literal, at: u32) -> Result<MeasuredExpr, AllocError>
    ensures { IfOk result (λ e. tall_tree e ≡ literal_tree (literal_of literal) at) }
{
    match literal {
        Literal::Number { negative, value } => {
            if negative {
                negated(alloc, value, at)
            } else {
                Ok(number(value, at))
            }
        }
        Literal::Truth(value) => Ok(truth(value, at)),
    }
}

/// A name at an offset.
pub fn variable(name: String, at: u32) -> MeasuredExpr
    ensures { tall_tree result ≡ variable (string_bytes name) at }
{
    MeasuredExpr {
        expr: Expr {
            form: ExprForm::Name(name),
            at,
        },
        high: 1,
    }
}

fn number(value: u128, at: u32) -> MeasuredExpr
    ensures { tall_tree result ≡ number value at }
{
    MeasuredExpr {
        expr: Expr {
            form: ExprForm::Number(value),
            at,
        },
        high: 1,
    }
}

fn truth(value: bool, at: u32) -> MeasuredExpr
    ensures { tall_tree result ≡ truth value at }
{
    MeasuredExpr {
        expr: Expr {
            form: ExprForm::Bool(value),
            at,
        },
        high: 1,
    }
}

fn negated(alloc: Global, value: u128, at: u32) -> Result<MeasuredExpr, AllocError>
    ensures { IfOk result (λ e. tall_tree e ≡ prefix prefixes.Neg (number value at) at) }
{
    let of = Expr {
        form: ExprForm::Number(value),
        at,
    };
    let form = ExprForm::Prefix {
        op: PrefixOp::Neg,
        of: Box::new(alloc, of)?,
    };
    Ok(MeasuredExpr {
        expr: Expr { form, at },
        high: 2,
    })
}
