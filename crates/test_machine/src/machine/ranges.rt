//! Ranges of cells that are copied or made 0.

use crate::programs::Found::Ran;
use crate::programs::Item::{Do, To};
use crate::programs::{Item, ON_SIX, Table, hold};
use action_machine::Outcome;
use code_ir::Instr;
use rvc_base::{Num, Trap};

const LEAST: Num = Num::MIN;

const GREATEST: Num = Num::MAX;

/// If the ranges overlap, a cell that was written is read as written.
const COPIED: &[Item] = &[
    Do(Instr::Copy(3, 0, 3, None)),
    To(Ran(Outcome::Done, [1, 2, 3, 1, 2, 3])),
    Do(Instr::Copy(0, 3, 3, None)),
    To(Ran(Outcome::Done, [4, 5, 6, 4, 5, 6])),
    Do(Instr::Copy(0, 5, 1, None)),
    To(Ran(Outcome::Done, [6, 2, 3, 4, 5, 6])),
    Do(Instr::Copy(2, 2, 3, None)),
    To(Ran(Outcome::Done, [1, 2, 3, 4, 5, 6])),
    Do(Instr::Copy(6, 6, 0, None)),
    To(Ran(Outcome::Done, [1, 2, 3, 4, 5, 6])),
    Do(Instr::Copy(1, 0, 5, None)),
    To(Ran(Outcome::Done, [1, 1, 1, 1, 1, 1])),
    Do(Instr::Copy(2, 0, 4, None)),
    To(Ran(Outcome::Done, [1, 2, 1, 2, 1, 2])),
    Do(Instr::Copy(0, 1, 5, None)),
    To(Ran(Outcome::Done, [2, 3, 4, 5, 6, 6])),
];

/// An offset outside changes no cell.
const COPIED_TO: &[Item] = &[
    Do(Instr::Const(0)),
    Do(Instr::CopyTo(2, 4, 0, 2, None)),
    To(Ran(Outcome::Done, [1, 2, 1, 2, 5, 6])),
    Do(Instr::Const(1)),
    Do(Instr::CopyTo(2, 4, 0, 2, None)),
    To(Ran(Outcome::Done, [1, 2, 3, 1, 2, 6])),
    Do(Instr::Const(2)),
    Do(Instr::CopyTo(2, 4, 0, 2, None)),
    To(Ran(Outcome::Done, [1, 2, 3, 4, 1, 2])),
    Do(Instr::Const(0)),
    Do(Instr::CopyTo(0, 6, 0, 6, None)),
    To(Ran(Outcome::Done, [1, 2, 3, 4, 5, 6])),
    Do(Instr::Const(6)),
    Do(Instr::CopyTo(0, 6, 6, 0, None)),
    To(Ran(Outcome::Done, [1, 2, 3, 4, 5, 6])),
    Do(Instr::Const(1)),
    Do(Instr::CopyTo(0, 6, 0, 4, None)),
    To(Ran(Outcome::Done, [1, 1, 1, 1, 1, 6])),
    Do(Instr::Const(1)),
    Do(Instr::CopyTo(0, 6, 2, 4, None)),
    To(Ran(Outcome::Done, [1, 3, 4, 5, 6, 6])),
    Do(Instr::Const(3)),
    Do(Instr::CopyTo(2, 4, 0, 2, None)),
    To(Ran(Outcome::Trap(Trap::IndexRange), [1, 2, 3, 4, 5, 6])),
    Do(Instr::Const(4)),
    Do(Instr::CopyTo(2, 4, 0, 2, None)),
    To(Ran(Outcome::Trap(Trap::IndexRange), [1, 2, 3, 4, 5, 6])),
    Do(Instr::Const(-1)),
    Do(Instr::CopyTo(2, 4, 0, 2, None)),
    To(Ran(Outcome::Trap(Trap::IndexRange), [1, 2, 3, 4, 5, 6])),
    Do(Instr::Const(LEAST)),
    Do(Instr::CopyTo(2, 4, 0, 2, None)),
    To(Ran(Outcome::Trap(Trap::IndexRange), [1, 2, 3, 4, 5, 6])),
    Do(Instr::Const(GREATEST)),
    Do(Instr::CopyTo(2, 4, 0, 2, None)),
    To(Ran(Outcome::Trap(Trap::IndexRange), [1, 2, 3, 4, 5, 6])),
    Do(Instr::Const(4294967296)),
    Do(Instr::CopyTo(2, 4, 0, 2, None)),
    To(Ran(Outcome::Trap(Trap::IndexRange), [1, 2, 3, 4, 5, 6])),
    Do(Instr::Const(18446744073709551616)),
    Do(Instr::CopyTo(2, 4, 0, 2, None)),
    To(Ran(Outcome::Trap(Trap::IndexRange), [1, 2, 3, 4, 5, 6])),
    Do(Instr::Const(-2)),
    Do(Instr::CopyTo(0, 1, 0, 2, None)),
    To(Ran(Outcome::Trap(Trap::IndexRange), [1, 2, 3, 4, 5, 6])),
    Do(Instr::Const(-1)),
    Do(Instr::CopyTo(0, 1, 0, 2, None)),
    To(Ran(Outcome::Trap(Trap::IndexRange), [1, 2, 3, 4, 5, 6])),
    Do(Instr::Const(0)),
    Do(Instr::CopyTo(0, 1, 0, 2, None)),
    To(Ran(Outcome::Trap(Trap::IndexRange), [1, 2, 3, 4, 5, 6])),
    Do(Instr::Const(1)),
    Do(Instr::CopyTo(0, 1, 0, 2, None)),
    To(Ran(Outcome::Trap(Trap::IndexRange), [1, 2, 3, 4, 5, 6])),
];

const COPIED_FROM: &[Item] = &[
    Do(Instr::Const(0)),
    Do(Instr::CopyFrom(0, 2, 4, 2)),
    To(Ran(Outcome::Done, [3, 4, 3, 4, 5, 6])),
    Do(Instr::Const(1)),
    Do(Instr::CopyFrom(0, 2, 4, 2)),
    To(Ran(Outcome::Done, [4, 5, 3, 4, 5, 6])),
    Do(Instr::Const(2)),
    Do(Instr::CopyFrom(0, 2, 4, 2)),
    To(Ran(Outcome::Done, [5, 6, 3, 4, 5, 6])),
    Do(Instr::Const(0)),
    Do(Instr::CopyFrom(0, 0, 6, 6)),
    To(Ran(Outcome::Done, [1, 2, 3, 4, 5, 6])),
    Do(Instr::Const(6)),
    Do(Instr::CopyFrom(6, 0, 6, 0)),
    To(Ran(Outcome::Done, [1, 2, 3, 4, 5, 6])),
    Do(Instr::Const(0)),
    Do(Instr::CopyFrom(1, 0, 6, 4)),
    To(Ran(Outcome::Done, [1, 1, 1, 1, 1, 6])),
    Do(Instr::Const(2)),
    Do(Instr::CopyFrom(0, 0, 6, 4)),
    To(Ran(Outcome::Done, [3, 4, 5, 6, 5, 6])),
    Do(Instr::Const(3)),
    Do(Instr::CopyFrom(0, 2, 4, 2)),
    To(Ran(Outcome::Trap(Trap::IndexRange), [1, 2, 3, 4, 5, 6])),
    Do(Instr::Const(4)),
    Do(Instr::CopyFrom(0, 2, 4, 2)),
    To(Ran(Outcome::Trap(Trap::IndexRange), [1, 2, 3, 4, 5, 6])),
    Do(Instr::Const(-1)),
    Do(Instr::CopyFrom(0, 2, 4, 2)),
    To(Ran(Outcome::Trap(Trap::IndexRange), [1, 2, 3, 4, 5, 6])),
    Do(Instr::Const(LEAST)),
    Do(Instr::CopyFrom(0, 2, 4, 2)),
    To(Ran(Outcome::Trap(Trap::IndexRange), [1, 2, 3, 4, 5, 6])),
    Do(Instr::Const(GREATEST)),
    Do(Instr::CopyFrom(0, 2, 4, 2)),
    To(Ran(Outcome::Trap(Trap::IndexRange), [1, 2, 3, 4, 5, 6])),
    Do(Instr::Const(4294967296)),
    Do(Instr::CopyFrom(0, 2, 4, 2)),
    To(Ran(Outcome::Trap(Trap::IndexRange), [1, 2, 3, 4, 5, 6])),
    Do(Instr::Const(18446744073709551616)),
    Do(Instr::CopyFrom(0, 2, 4, 2)),
    To(Ran(Outcome::Trap(Trap::IndexRange), [1, 2, 3, 4, 5, 6])),
    Do(Instr::Const(-2)),
    Do(Instr::CopyFrom(0, 0, 1, 2)),
    To(Ran(Outcome::Trap(Trap::IndexRange), [1, 2, 3, 4, 5, 6])),
    Do(Instr::Const(-1)),
    Do(Instr::CopyFrom(0, 0, 1, 2)),
    To(Ran(Outcome::Trap(Trap::IndexRange), [1, 2, 3, 4, 5, 6])),
    Do(Instr::Const(0)),
    Do(Instr::CopyFrom(0, 0, 1, 2)),
    To(Ran(Outcome::Trap(Trap::IndexRange), [1, 2, 3, 4, 5, 6])),
    Do(Instr::Const(1)),
    Do(Instr::CopyFrom(0, 0, 1, 2)),
    To(Ran(Outcome::Trap(Trap::IndexRange), [1, 2, 3, 4, 5, 6])),
];

const ZEROED: &[Item] = &[
    Do(Instr::Zero(1, 3)),
    To(Ran(Outcome::Done, [1, 0, 0, 0, 5, 6])),
    Do(Instr::Zero(5, 1)),
    To(Ran(Outcome::Done, [1, 2, 3, 4, 5, 0])),
    Do(Instr::Zero(6, 0)),
    To(Ran(Outcome::Done, [1, 2, 3, 4, 5, 6])),
    Do(Instr::Zero(0, 6)),
    To(Ran(Outcome::Done, [0, 0, 0, 0, 0, 0])),
];

const RANGES: &[Table] = &[
    (ON_SIX, COPIED),
    (ON_SIX, COPIED_TO),
    (ON_SIX, COPIED_FROM),
    (ON_SIX, ZEROED),
];

#[test]
fn cells_are_copied_or_become_zero(rt: HostRuntime) {
    hold(&rt, rt.alloc(), RANGES);
}
