//! Types and kinds that see only what is declared before them.

ghost use Rattle.std.specs.Prelude.{IfOk};
ghost use Rattle.cal_ast.specs.View.{expr_tree, type_tree};
ghost use Rattle.cal_model.specs.Value.{IsType};
ghost use Rattle.cal_model.specs.View.{kind_view, shape_view};
ghost use Rattle.const_env.specs.Held.{names_in};
ghost use Rattle.const_env.specs.Judging.{Judges};
ghost use Rattle.fnl_values.specs.Judging.{IsLateInExpr, IsLateInType};
ghost use Rattle.cal_check.specs.Constants.{early_kind, early_type, stored_kind};

use crate::constant::place_of;
use cal_ast::{Expr, TypeExpr};
use cal_model::{Kind, Shape, types_are_kept};
use check_values::{constant_place, constant_place_in_type};
use const_eval::{Env, KindFault, Names, kind_const, one_kind, type_judged};
use rvc_base::Rule;
use std::alloc::Global;

/// A fault in a type: a name that isn't known yet makes it not constant.
fn late_in_type(fault: KindFault, t: &TypeExpr) -> KindFault
    ensures { IsLateInType fault result (type_tree t.now) }
{
    match fault {
        KindFault::Broken { rule, at } => {
            if rule == Rule::UNKNOWN_NAME {
                let at = constant_place_in_type(at, t);
                return KindFault::Broken {
                    rule: Rule::NOT_CONSTANT,
                    at,
                };
            }
            KindFault::Broken { rule, at }
        }
        KindFault::Memory => KindFault::Memory,
    }
}

/// A fault in an expression: a name that isn't known yet makes it not constant.
fn late_in_expr(fault: KindFault, e: &Expr) -> KindFault
    ensures { IsLateInExpr fault result (expr_tree e.now) }
{
    match fault {
        KindFault::Broken { rule, at } => {
            if rule == Rule::UNKNOWN_NAME {
                let at = constant_place(at, e);
                return KindFault::Broken {
                    rule: Rule::NOT_CONSTANT,
                    at,
                };
            }
            KindFault::Broken { rule, at }
        }
        KindFault::Memory => KindFault::Memory,
    }
}

/// The type of what is declared.
pub(crate) fn early_type(alloc: Global, env: &Env, t: &TypeExpr) -> Result<Shape, KindFault>
    ensures judged { Judges shape_view result (early_type (type_tree t.now) (names_in env.now)) }
    ensures allowed { IfOk result (λ shape. IsType (shape_view shape)) }
{
    types_are_kept();
    match type_judged(&Names::outermost(alloc, env), t) {
        Ok(shape) => Ok(shape),
        Err(fault) => Err(late_in_type(fault, t)),
    }
}

/// That an expression's value may be stored as one of a kind.
fn stored_kind(alloc: Global, env: &Env, k: &Kind, e: &Expr) -> Result<(), KindFault>
    ensures { Judges (λ _. kind_view k.now) result
        (stored_kind (kind_view k.now) (expr_tree e.now) (names_in env.now)) }
{
    let found = kind_const(alloc, env, e)?;
    one_kind(k, &found, place_of(e))
}

/// The same over what is declared before it.
pub(crate) fn early_kind(alloc: Global, env: &Env, k: &Kind, e: &Expr) -> Result<(), KindFault>
    ensures { Judges (λ _. kind_view k.now) result
        (early_kind (kind_view k.now) (expr_tree e.now) (names_in env.now)) }
{
    match stored_kind(alloc, env, k, e) {
        Ok(()) => Ok(()),
        Err(fault) => Err(late_in_expr(fault, e)),
    }
}
