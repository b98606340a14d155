//! How the evaluation of an expression ends.

ghost use Rattle.std.specs.Prelude.{◌≡◌, ℕ, IfErr, IfOk};
ghost use Rattle.cal_ast.specs.View.{expr_tree};
ghost use Rattle.cal_model.specs.Outcome.{Gives};
ghost use Rattle.cal_model.specs.View.{value_view};
ghost use Rattle.const_expr.specs.Evaluable.{value_of};
ghost use Rattle.const_env.specs.Held.{held};
ghost use Rattle.const_env.specs.Outcome.{Stops};

use cal_ast::Expr;
use cal_model::Value;
use const_env::{Env, EvalError};
use const_expr::scope::Scope;
use const_expr::{all_turns, eval};
use std::alloc::Global;

/// What the evaluation of an expression over the constants and functions of the environment ends with (ISO/IEC 23001-4,
/// RVC-CAL: expressions), with its own count of turns. Nothing is asked of the expression or of the functions.
///
/// # Errors
///
/// `Trap` if it traps, `Lacks` if it reaches a name that the environment lacks, and `Clashes` if it reaches a part that is
/// of another kind than its form asks, whichever comes first. `Memory` if memory runs out.
pub fn eval_to_end(alloc: Global, env: &Env, e: &Expr) -> Result<Value, EvalError>
    ensures value { IfOk result (λ value. (left : ℕ)
        × (value_of (expr_tree e.now) (held env.now) ≡ Gives (value_view value) left)) }
    ensures stop { IfErr result (λ stop. Stops stop (value_of (expr_tree e.now) (held env.now))) }
{
    let scope = Scope::outermost(alloc, env);
    let mut turns = all_turns();
    match eval(&scope, e, &mut turns) {
        Ok(value) => Ok(value),
        Err(stop) => Err(stop),
    }
}
