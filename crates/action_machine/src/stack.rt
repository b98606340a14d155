//! The stack of operands, in a slice of fixed length.

ghost use Rattle.std.specs.Prelude.{◌≡◌, ◌+◌, ◌≤◌, ◌<◌, ℤ, List, ◌∷◌, length};
ghost use Rattle.code_ir.specs.Effect.{push_computed};
ghost use Rattle.action_machine.specs.Stacks.{operands};
ghost use Rattle.rvc_base.specs.Computing.{computed_of};
ghost use Rattle.action_machine.specs.Acting.{effect_of};

use rvc_base::{Num, Trap};

/// What carrying out an instruction comes to that goes to the next place.
#[derive(Clone, Copy)]
pub(crate) enum Acted {
    On,
    Fails(Trap),
}

/// Takes the top off the stack, whose operands are those below `top`.
#[inline]
pub(crate) fn pop(top: &mut usize, stack: &[Num]) -> Num
    requires some { 0 < top.old }
    requires inside { top.old ≤ length stack.now }
    ensures operands { operands top.old stack.now ≡ result ∷ operands top.new stack.now }
    ensures fewer { top.new + 1 ≡ top.old }
{
    *top -= 1;
    stack[*top]
}

/// Puts a number on the stack.
#[inline]
pub(crate) fn push(top: &mut usize, stack: &mut [Num], v: Num)
    requires { top.old < length stack.old }
    ensures operands { operands top.new stack.new ≡ v ∷ operands top.old stack.old }
    ensures more { top.new ≡ top.old + 1 }
{
    stack[*top] = v;
    *top += 1;
}

/// Puts what an operation gives on the stack.
#[inline]
pub(crate) fn push_result(top: &mut usize, stack: &mut [Num], v: Result<Num, Trap>) -> Acted
    requires { top.old < length stack.old }
    ensures { (cells : List ℤ) →
        push_computed (computed_of v) (operands top.old stack.old) cells
        ≡ effect_of result (operands top.new stack.new) cells }
{
    match v {
        Ok(v) => {
            push(top, stack, v);
            Acted::On
        }
        Err(trap) => Acted::Fails(trap),
    }
}
