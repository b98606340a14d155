//! The instructions on ranges of cells whose places are fixed.

ghost use Rattle.std.specs.Prelude.{◌≡◌, ◌+◌, ◌≤◌, length};
ghost use Rattle.code_ir.specs.declared.instr.Instr.TheVariants as op;
ghost use Rattle.code_ir.specs.Effect.{copied, zeroed};
ghost use Rattle.code_ir.specs.Typing.{IsSized};
ghost use Rattle.action_machine.specs.Acting.{OnFails, Rewrites};

use crate::loads::stored;
use crate::stack::Acted;
use rvc_base::{Num, Scalar};

/// Stores cells in those from `target`, one after the other from the first.
#[inline]
pub(crate) fn copy_cells(
    target: usize,
    source: usize,
    count: usize,
    t: Option<Scalar>,
    cells: &mut [Num],
)
    requires to { target + count ≤ length cells.old }
    requires from { source + count ≤ length cells.old }
    requires sized { IsSized t }
    ensures { cells.new ≡ copied t target source count cells.old }
{
    for k in 0..count {
        cells[target + k] = stored(t, cells[source + k]);
    }
}

/// Makes cells 0.
#[inline]
fn zero_cells(target: usize, count: usize, cells: &mut [Num])
    requires { target + count ≤ length cells.old }
    ensures { cells.new ≡ zeroed target count cells.old }
{
    for k in 0..count {
        cells[target + k] = 0;
    }
}

/// Stores `count` cells from `source` in those from `target`.
#[inline]
pub(crate) fn copy(
    target: u32,
    source: u32,
    count: u32,
    t: Option<Scalar>,
    cells: &mut [Num],
) -> Acted
    requires to { target + count ≤ length cells.old }
    requires from { source + count ≤ length cells.old }
    requires sized { IsSized t }
    ensures effect { Rewrites (op.Copy target source count t) cells.old result cells.new }
    ensures kept { OnFails result (cells.new ≡ cells.old) }
{
    copy_cells(target as usize, source as usize, count as usize, t, cells);
    Acted::On
}

/// Makes `count` cells from `target` 0.
#[inline]
pub(crate) fn zero(target: u32, count: u32, cells: &mut [Num]) -> Acted
    requires { target + count ≤ length cells.old }
    ensures effect { Rewrites (op.Zero target count) cells.old result cells.new }
    ensures kept { OnFails result (cells.new ≡ cells.old) }
{
    zero_cells(target as usize, count as usize, cells);
    Acted::On
}
