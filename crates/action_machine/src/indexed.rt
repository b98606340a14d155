//! The instructions that move numbers between the stack and cells whose places are computed.

ghost use Rattle.std.specs.Prelude.{◌≡◌, ◌+◌, ◌≤◌, ◌<◌, length};
ghost use Rattle.code_ir.specs.declared.instr.Instr.TheVariants as op;
ghost use Rattle.code_ir.specs.Typing.{IsSized};
ghost use Rattle.action_machine.specs.Stacks.{operands};
ghost use Rattle.action_machine.specs.Acting.{Computes, Moves, OnFails, effect_of};

use crate::loads::{load, stored};
use crate::offset::offset;
use crate::ranges::copy_cells;
use crate::stack::{Acted, pop, push_result};
use crate::stepping::stepped;
use rvc_base::{Num, Scalar, Trap};

/// Pops an index, then an offset, and pushes the offset of that element, each of `step` numbers.
#[inline]
pub(crate) fn index(len: u32, step: u32, top: &mut usize, stack: &mut [Num]) -> Acted
    requires enough { 2 ≤ top.old }
    requires below { top.old ≤ length stack.old }
    ensures { Computes (op.Index len step) (operands top.old stack.old)
        result (operands top.new stack.new) }
{
    let index = pop(top, stack);
    let start = pop(top, stack);
    match offset(index, 1, len) {
        None => Acted::Fails(Trap::IndexRange),
        Some(k) => push_result(top, stack, stepped(start, k, step)),
    }
}

/// Pops an offset, and pushes the cell there.
#[inline]
pub(crate) fn load_at(
    source: u32,
    len: u32,
    top: &mut usize,
    stack: &mut [Num],
    cells: &[Num],
) -> Acted
    requires some { 0 < top.old }
    requires below { top.old ≤ length stack.old }
    requires inside { source + len ≤ length cells.now }
    requires small { length cells.now ≤ 4294967295 }
    ensures { Moves (op.LoadAt source len) (operands top.old stack.old) cells.now
        (effect_of result (operands top.new stack.new) cells.now) }
{
    let o = pop(top, stack);
    match offset(o, 1, len) {
        None => Acted::Fails(Trap::IndexRange),
        Some(k) => load(source + k, top, stack, cells),
    }
}

/// Pops a number, then an offset, and stores the number in the cell there.
#[inline]
pub(crate) fn store_at(
    target: u32,
    len: u32,
    t: Option<Scalar>,
    top: &mut usize,
    stack: &[Num],
    cells: &mut [Num],
) -> Acted
    requires enough { 2 ≤ top.old }
    requires below { top.old ≤ length stack.now }
    requires inside { target + len ≤ length cells.old }
    requires sized { IsSized t }
    ensures effect { Moves (op.StoreAt target len t) (operands top.old stack.now) cells.old
        (effect_of result (operands top.new stack.now) cells.new) }
    ensures kept { OnFails result (cells.new ≡ cells.old) }
{
    let v = pop(top, stack);
    let o = pop(top, stack);
    match offset(o, 1, len) {
        None => Acted::Fails(Trap::IndexRange),
        Some(k) => {
            cells[target as usize + k as usize] = stored(t, v);
            Acted::On
        }
    }
}

/// Pops an offset, and stores `count` cells from `source` in those from there.
#[inline]
pub(crate) fn copy_to(
    target: u32,
    len: u32,
    source: u32,
    count: u32,
    t: Option<Scalar>,
    top: &mut usize,
    stack: &[Num],
    cells: &mut [Num],
) -> Acted
    requires some { 0 < top.old }
    requires below { top.old ≤ length stack.now }
    requires to { target + len ≤ length cells.old }
    requires from { source + count ≤ length cells.old }
    requires sized { IsSized t }
    ensures effect { Moves (op.CopyTo target len source count t) (operands top.old stack.now)
        cells.old (effect_of result (operands top.new stack.now) cells.new) }
    ensures kept { OnFails result (cells.new ≡ cells.old) }
{
    let o = pop(top, stack);
    match offset(o, count, len) {
        None => Acted::Fails(Trap::IndexRange),
        Some(k) => {
            let to = target as usize + k as usize;
            copy_cells(to, source as usize, count as usize, t, cells);
            Acted::On
        }
    }
}

/// Pops an offset, and copies `count` cells from there to those from `target`.
#[inline]
pub(crate) fn copy_from(
    target: u32,
    source: u32,
    len: u32,
    count: u32,
    top: &mut usize,
    stack: &[Num],
    cells: &mut [Num],
) -> Acted
    requires some { 0 < top.old }
    requires below { top.old ≤ length stack.now }
    requires to { target + count ≤ length cells.old }
    requires from { source + len ≤ length cells.old }
    ensures effect { Moves (op.CopyFrom target source len count) (operands top.old stack.now)
        cells.old (effect_of result (operands top.new stack.now) cells.new) }
    ensures kept { OnFails result (cells.new ≡ cells.old) }
{
    let o = pop(top, stack);
    match offset(o, count, len) {
        None => Acted::Fails(Trap::IndexRange),
        Some(k) => {
            let from = source as usize + k as usize;
            copy_cells(target as usize, from, count as usize, None, cells);
            Acted::On
        }
    }
}
