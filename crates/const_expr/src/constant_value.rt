//! What constant expressions give among names that are declared round them.

ghost use Rattle.std.specs.Prelude.{ℕ};
ghost use Rattle.cal_ast.specs.View.{expr_tree};
ghost use Rattle.cal_model.specs.Kinding.{constant};
ghost use Rattle.cal_model.specs.View.{value_view};
ghost use Rattle.const_env.specs.Counting.{names_view};
ghost use Rattle.const_env.specs.Outcome.{Evaluates};

use crate::entry::all_turns;
use crate::evaluate::eval;
use crate::scope::Scope;
use cal_ast::Expr;
use cal_model::{Value, constants_are_values};
use const_env::{EvalError, Names};

/// What a constant expression gives, with its own count of turns.
pub(crate) fn value_of(names: &Names, e: &Expr) -> Result<Value, EvalError>
    ensures { (left : ℕ) × Evaluates value_view result left
        (constant (expr_tree e.now) (names_view names.now)) }
{
    constants_are_values();
    let mut turns = all_turns();
    match names.inner {
        None => eval(&Scope::outermost(names.alloc, names.env), e, &mut turns),
        Some(inner) => eval(&Scope::among(names.alloc, names.env, inner), e, &mut turns),
    }
}
