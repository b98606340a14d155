//! The values with which declarations start.

ghost use Rattle.std.specs.Prelude.{◌≡◌, IfOk};
ghost use Rattle.cal_ast.specs.Tree.{present};
ghost use Rattle.cal_ast.specs.View.{expr_tree, optional_expr};
ghost use Rattle.cal_check.specs.Variables.{come};
ghost use Rattle.cal_model.specs.Value.{HasKind, IsType, kind_of_type};
ghost use Rattle.cal_model.specs.View.{kind_view, shape_view, value_view};
ghost use Rattle.const_env.specs.Held.{names_in};
ghost use Rattle.fnl_values.specs.Judging.{Starts};
ghost use Rattle.fnl_values.specs.Steady.{IsSteady};

use crate::constant::outcome;
use crate::early::early_kind;
use cal_ast::Expr;
use cal_model::{Kind, Shape, Value, constants_are_values};
use check_values::{stored, zero_of};
use const_eval::{Env, KindFault};
use std::alloc::Global;

/// The value with which a declaration of a type and its kind starts, stored in the type. Without one that is 0, false,
/// or lists of these.
pub(crate) fn start(
    alloc: Global,
    env: &Env,
    t: &Shape,
    k: &Kind,
    value: &Option<Expr>,
) -> Result<Value, KindFault>
    requires steady { IsSteady env.now }
    requires allowed { IsType (shape_view t.now) }
    requires kind { kind_view k.now ≡ kind_of_type (shape_view t.now) }
    ensures starts { Starts result
        (come (shape_view t.now) (optional_expr value.now) (names_in env.now)) }
    ensures kind { IfOk result (λ v. HasKind (kind_of_type (shape_view t.now)) (value_view v)) }
{
    match value {
        Some(e) => start_at(alloc, env, t, k, e),
        None => Ok(zero_of(alloc, t)?),
    }
}

/// The value that an expression gives, stored in a type.
fn start_at(alloc: Global, env: &Env, t: &Shape, k: &Kind, e: &Expr) -> Result<Value, KindFault>
    requires steady { IsSteady env.now }
    requires allowed { IsType (shape_view t.now) }
    requires kind { kind_view k.now ≡ kind_of_type (shape_view t.now) }
    ensures starts { Starts result
        (come (shape_view t.now) (present (expr_tree e.now)) (names_in env.now)) }
    ensures kind { IfOk result (λ v. HasKind (kind_of_type (shape_view t.now)) (value_view v)) }
{
    constants_are_values();
    early_kind(alloc, env, k, e)?;
    let value = outcome(alloc, env, e)?;
    let kept = stored(alloc, t, &value)?;
    Ok(kept)
}
