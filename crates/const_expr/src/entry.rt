//! The start of a call: its turn, and its arguments.

ghost use Rattle.std.specs.Prelude.{◌≡◌, ℕ, suc, OnOk, IfErr, map, true};
ghost use Rattle.rvc_base.specs.Turns.{max_turns};
ghost use Rattle.rvc_base.specs.declared.trap.Trap.TheVariants.{TurnLimit};
ghost use Rattle.cal_model.specs.Call.{arguments};
ghost use Rattle.cal_model.specs.Outcome.{needed};
ghost use Rattle.cal_model.specs.View.{in_order, local_view, value_view};
ghost use Rattle.const_env.specs.Outcome.{Evaluates};
ghost use Rattle.const_expr.specs.Scoping.{frame};
ghost use Rattle.const_env.specs.Sizes.{are_sized};

use cal_model::{BoundLocal, Value};
use const_env::EvalError;
use const_env::value::stored;
use rvc_base::{MAX_TURNS, Trap};
use std::alloc::Global;

/// The turns that one evaluation has, all its calls together.
pub fn all_turns() -> u32
    ensures { result ≡ max_turns }
{
    MAX_TURNS
}

/// Makes a turn. If none is left, that is one too many.
pub(crate) fn turn(left: &mut u32) -> Result<(), EvalError>
    ensures ok { OnOk result (left.old ≡ suc left.new) }
    ensures err { IfErr result (λ stop. (stop ≡ EvalError.Trap TurnLimit) × (left.old ≡ 0)) }
{
    if *left == 0 {
        return Err(EvalError::Trap(Trap::TurnLimit));
    }
    *left -= 1;
    Ok(())
}

/// The arguments, each stored in its formal's type. It clashes if they aren't as many.
pub(crate) fn entry(
    alloc: Global,
    formals: &[BoundLocal],
    args: &[Value],
) -> Result<Vec<Value>, EvalError>
    requires { are_sized (map local_view formals.now) ≡ true }
    ensures { (left : ℕ) → Evaluates
        (λ kept. frame formals.now kept.items) result left
        (needed (arguments (map local_view formals.now) (in_order (map value_view args.now)))
        left) }
{
    if formals.len() != args.len() {
        return Err(EvalError::Clashes);
    }
    let mut kept = Vec::new(alloc);
    for place in 0..formals.len() {
        let value = stored(alloc, &formals[place].shape, &args[place])?;
        kept.push(value)?;
    }
    Ok(kept)
}
