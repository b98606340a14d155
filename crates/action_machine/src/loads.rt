//! The instructions that move numbers between the stack and cells whose places are fixed.

ghost use Rattle.std.specs.Prelude.{◌≡◌, ◌+◌, ◌≤◌, ◌<◌, length};
ghost use Rattle.code_ir.specs.declared.instr.Instr.TheVariants as op;
ghost use Rattle.code_ir.specs.Effect.{stored};
ghost use Rattle.code_ir.specs.Typing.{IsSized};
ghost use Rattle.action_machine.specs.Stacks.{operands};
ghost use Rattle.action_machine.specs.Acting.{Computes, Moves, OnFails, effect_of};

use crate::stack::{Acted, pop, push};
use rvc_base::{Num, Scalar, conv};

/// The number in the type in which it is stored.
#[inline]
pub(crate) fn stored(t: Option<Scalar>, v: Num) -> Num
    requires { IsSized t }
    ensures { result ≡ stored t v }
{
    match t {
        None => v,
        Some(t) => conv(t, v),
    }
}

/// Pushes a number.
#[inline]
pub(crate) fn constant(v: Num, top: &mut usize, stack: &mut [Num]) -> Acted
    requires { top.old < length stack.old }
    ensures { Computes (op.Const v) (operands top.old stack.old)
        result (operands top.new stack.new) }
{
    push(top, stack, v);
    Acted::On
}

/// Pushes a cell.
#[inline]
pub(crate) fn load(cell: u32, top: &mut usize, stack: &mut [Num], cells: &[Num]) -> Acted
    requires room { top.old < length stack.old }
    requires inside { cell + 1 ≤ length cells.now }
    ensures { Moves (op.Load cell) (operands top.old stack.old) cells.now
        (effect_of result (operands top.new stack.new) cells.now) }
{
    push(top, stack, cells[cell as usize]);
    Acted::On
}

/// Pops a number into a cell.
#[inline]
pub(crate) fn store(
    cell: u32,
    t: Option<Scalar>,
    top: &mut usize,
    stack: &[Num],
    cells: &mut [Num],
) -> Acted
    requires some { 0 < top.old }
    requires below { top.old ≤ length stack.now }
    requires inside { cell + 1 ≤ length cells.old }
    requires sized { IsSized t }
    ensures effect { Moves (op.Store cell t) (operands top.old stack.now) cells.old
        (effect_of result (operands top.new stack.now) cells.new) }
    ensures kept { OnFails result (cells.new ≡ cells.old) }
{
    let v = pop(top, stack);
    cells[cell as usize] = stored(t, v);
    Acted::On
}

/// Pops a number.
#[inline]
pub(crate) fn drop_top(top: &mut usize, stack: &[Num]) -> Acted
    requires some { 0 < top.old }
    requires below { top.old ≤ length stack.now }
    ensures { Computes op.Drop (operands top.old stack.now) result (operands top.new stack.now) }
{
    let _v = pop(top, stack);
    Acted::On
}
