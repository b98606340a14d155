//! Code that breaks a typing line, and the place that is named.

use crate::programs::Found::{Bad, Ran};
use crate::programs::Item::{Do, To};
use crate::programs::{Frame, Item, Table, hold};
use action_machine::Outcome;
use code_ir::{Instr, Routine};

const NO_RESULT: Routine = Routine {
    start: 0,
    results: 0,
};

const ENTRY_BODIES: &[Item] = &[
    Do(Instr::Const(1)),
    Do(Instr::Answer),
    To(Ran(Outcome::True, [0, 0, 0, 0, 0, 0])),
    Do(Instr::Const(1)),
    Do(Instr::Return),
    To(Bad(1)),
    Do(Instr::Const(1)),
    Do(Instr::Add),
    Do(Instr::Answer),
    To(Bad(1)),
    Do(Instr::Drop),
    Do(Instr::Done),
    To(Bad(0)),
    Do(Instr::Load(1)),
    Do(Instr::Answer),
    To(Ran(Outcome::False, [0, 0, 0, 0, 0, 0])),
    Do(Instr::Load(2)),
    Do(Instr::Answer),
    To(Bad(0)),
    Do(Instr::Zero(1, 2)),
    Do(Instr::Done),
    To(Bad(0)),
    Do(Instr::Const(1)),
    Do(Instr::Turn),
    To(Bad(1)),
    Do(Instr::Call(0)),
    Do(Instr::Done),
    To(Bad(0)),
    Do(Instr::Jump(2)),
    Do(Instr::Done),
    To(Bad(0)),
    Do(Instr::Turn),
    Do(Instr::Const(0)),
    Do(Instr::JumpIfNot(1)),
    Do(Instr::Done),
    To(Bad(2)),
    // place 4 has no operand on one way, and one on the other
    Do(Instr::Const(0)),
    Do(Instr::JumpIfNot(4)),
    Do(Instr::Const(1)),
    Do(Instr::Turn),
    Do(Instr::Done),
    To(Bad(4)),
];

/// Two routines of two instructions, which leave a result each, and the body of an entry behind them.
const TWO: &[Routine] = &[
    Routine {
        start: 0,
        results: 1,
    },
    Routine {
        start: 2,
        results: 1,
    },
];

const ONE: Instr = Instr::Const(1);

const CALL: Instr = Instr::Call(1);

const ROUTINES: &[Item] = &[
    Do(ONE),
    Do(Instr::Return),
    Do(ONE),
    Do(Instr::Return),
    Do(CALL),
    Do(Instr::Answer),
    To(Ran(Outcome::True, [0, 0, 0, 0, 0, 0])),
    Do(ONE),
    Do(Instr::Return),
    Do(Instr::Call(0)),
    Do(Instr::Return),
    Do(CALL),
    Do(Instr::Answer),
    To(Ran(Outcome::True, [0, 0, 0, 0, 0, 0])),
    Do(Instr::Turn),
    Do(Instr::Return),
    Do(ONE),
    Do(Instr::Return),
    Do(CALL),
    Do(Instr::Answer),
    To(Bad(1)),
    Do(ONE),
    Do(Instr::Answer),
    Do(ONE),
    Do(Instr::Return),
    Do(CALL),
    Do(Instr::Answer),
    To(Bad(1)),
    Do(ONE),
    Do(Instr::Return),
    Do(ONE),
    Do(Instr::Done),
    Do(CALL),
    Do(Instr::Answer),
    To(Bad(3)),
    Do(Instr::Call(0)),
    Do(Instr::Return),
    Do(ONE),
    Do(Instr::Return),
    Do(CALL),
    Do(Instr::Answer),
    To(Bad(0)),
    Do(Instr::Call(1)),
    Do(Instr::Return),
    Do(ONE),
    Do(Instr::Return),
    Do(CALL),
    Do(Instr::Answer),
    To(Bad(0)),
    Do(ONE),
    Do(Instr::Return),
    Do(Instr::Call(1)),
    Do(Instr::Return),
    Do(CALL),
    Do(Instr::Answer),
    To(Bad(2)),
    Do(ONE),
    Do(Instr::Return),
    Do(Instr::Call(2)),
    Do(Instr::Return),
    Do(CALL),
    Do(Instr::Answer),
    To(Bad(2)),
    Do(ONE),
    Do(Instr::Return),
    Do(Instr::Jump(1)),
    Do(Instr::Return),
    Do(CALL),
    Do(Instr::Answer),
    To(Bad(2)),
];

/// Two cells.
const PAIR: Frame<'static> = Frame {
    cells: 2,
    routines: &[],
    entries: &[0],
    entry: 0,
    before: &[],
    after: &[],
};

/// Two routines before an entry at 4.
const BEHIND_TWO: Frame<'static> = Frame {
    cells: 2,
    routines: TWO,
    entries: &[4],
    entry: 4,
    before: &[],
    after: &[],
};

const BODIES: &[Table] = &[
    // two bodies that end at once, which begin at distinct places of the code or don't
    (
        Frame {
            cells: 2,
            routines: &[],
            entries: &[0, 1],
            entry: 0,
            before: &[],
            after: &[],
        },
        &[
            Do(Instr::Done),
            Do(Instr::Done),
            To(Ran(Outcome::Done, [0, 0, 0, 0, 0, 0])),
        ],
    ),
    (
        Frame {
            cells: 2,
            routines: &[],
            entries: &[0, 2],
            entry: 0,
            before: &[],
            after: &[],
        },
        &[Do(Instr::Done), Do(Instr::Done), To(Bad(2))],
    ),
    (
        Frame {
            cells: 2,
            routines: &[],
            entries: &[0, 1, 1],
            entry: 0,
            before: &[],
            after: &[],
        },
        &[Do(Instr::Done), Do(Instr::Done), To(Bad(1))],
    ),
    (
        Frame {
            cells: 2,
            routines: &[NO_RESULT],
            entries: &[0],
            entry: 0,
            before: &[],
            after: &[],
        },
        &[Do(Instr::Done), Do(Instr::Done), To(Bad(0))],
    ),
    (
        Frame {
            cells: 2,
            routines: &[],
            entries: &[1],
            entry: 1,
            before: &[],
            after: &[],
        },
        &[Do(Instr::Done), Do(Instr::Done), To(Bad(0))],
    ),
    (PAIR, ENTRY_BODIES),
    (BEHIND_TWO, ROUTINES),
];

#[test]
fn a_body_begins_at_its_place_and_names_the_instruction_that_breaks_a_line(rt: HostRuntime) {
    hold(&rt, rt.alloc(), BODIES);
}
