//! Expressions that must be constant.

ghost use Rattle.std.specs.Prelude.{◌≡◌, Some};
ghost use Rattle.cal_ast.specs.Places.{begins};
ghost use Rattle.cal_ast.specs.View.{expr_tree};
ghost use Rattle.cal_model.specs.View.{value_view};
ghost use Rattle.const_env.specs.Held.{names_in};
ghost use Rattle.const_env.specs.Judging.{Judges};
ghost use Rattle.fnl_bind.specs.Values.{value_judged};
ghost use Rattle.fnl_values.specs.InMemory.{outcome_in};
ghost use Rattle.fnl_values.specs.Steady.{IsSteady};

use cal_ast::Expr;
use cal_model::{Value, constants_are_values};
use const_eval::{ConstFault, Env, KindFault, eval_const, kind_const};
use rvc_base::Rule;
use std::alloc::Global;

/// The offset at which an expression begins.
pub(crate) fn place_of(e: &Expr) -> u32
    ensures { result ≡ begins (expr_tree e.now) }
{
    e.at
}

/// What an expression gives that has a kind.
pub(crate) fn outcome(alloc: Global, env: &Env, e: &Expr) -> Result<Value, KindFault>
    ensures { Judges value_view result (outcome_in env.now e.now) }
{
    constants_are_values();
    let at = place_of(e);
    match eval_const(alloc, env, e) {
        Ok(value) => Ok(value),
        Err(ConstFault::Trap(_)) => Err(KindFault::Broken {
            rule: Rule::CONSTANT_TRAPS,
            at,
        }),
        Err(ConstFault::NotConstant) => Err(KindFault::Broken {
            rule: Rule::NOT_CONSTANT,
            at,
        }),
        Err(ConstFault::Memory) => Err(KindFault::Memory),
    }
}

/// The value of an expression that must be constant.
pub(crate) fn value(alloc: Global, env: &Env, e: &Expr) -> Result<Value, KindFault>
    requires { IsSteady env.now }
    ensures { Judges (λ v. Some (value_view v)) result
        (value_judged (expr_tree e.now) (names_in env.now)) }
{
    constants_are_values();
    kind_const(alloc, env, e)?;
    outcome(alloc, env, e)
}
