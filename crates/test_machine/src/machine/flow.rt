//! Jumps, turns, calls, and how runs end.

use crate::programs::Found::{Bad, Ran, Unfit};
use crate::programs::Item::{Do, From, To};
use crate::programs::{ALONE, Frame, Item, hold};
use action_machine::Outcome;
use code_ir::{Instr, Routine};
use rvc_base::{MAX_TURNS, Num, Trap};

const LEAST: Num = Num::MIN;

const GREATEST: Num = Num::MAX;

const ENDED: &[Item] = &[
    Do(Instr::Const(7)),
    Do(Instr::Const(0)),
    Do(Instr::Div),
    Do(Instr::Answer),
    To(Ran(Outcome::Trap(Trap::DivideByZero), [0, 0, 0, 0, 0, 0])),
    Do(Instr::Const(GREATEST)),
    Do(Instr::Const(1)),
    Do(Instr::Add),
    Do(Instr::Answer),
    To(Ran(Outcome::Trap(Trap::Overflow), [0, 0, 0, 0, 0, 0])),
    Do(Instr::Turn),
    Do(Instr::Jump(0)),
    To(Ran(Outcome::Trap(Trap::TurnLimit), [0, 0, 0, 0, 0, 0])),
    // what was stored before a trap is left
    Do(Instr::Const(5)),
    Do(Instr::Store(0, None)),
    Do(Instr::Const(1)),
    Do(Instr::Const(0)),
    Do(Instr::Mod),
    Do(Instr::Store(1, None)),
    Do(Instr::Done),
    To(Ran(Outcome::Trap(Trap::DivideByZero), [5, 0, 0, 0, 0, 0])),
    // a guard is true if its answer is not zero
    Do(Instr::Const(0)),
    Do(Instr::Answer),
    To(Ran(Outcome::False, [0, 0, 0, 0, 0, 0])),
    Do(Instr::Const(1)),
    Do(Instr::Answer),
    To(Ran(Outcome::True, [0, 0, 0, 0, 0, 0])),
    Do(Instr::Const(-1)),
    Do(Instr::Answer),
    To(Ran(Outcome::True, [0, 0, 0, 0, 0, 0])),
    Do(Instr::Const(LEAST)),
    Do(Instr::Answer),
    To(Ran(Outcome::True, [0, 0, 0, 0, 0, 0])),
    Do(Instr::Const(GREATEST)),
    Do(Instr::Answer),
    To(Ran(Outcome::True, [0, 0, 0, 0, 0, 0])),
    Do(Instr::Const(18446744073709551616)),
    Do(Instr::Answer),
    To(Ran(Outcome::True, [0, 0, 0, 0, 0, 0])),
    Do(Instr::Done),
    To(Ran(Outcome::Done, [0, 0, 0, 0, 0, 0])),
    Do(Instr::Jump(3)),
    Do(Instr::Const(1)),
    Do(Instr::Jump(4)),
    Do(Instr::Const(2)),
    Do(Instr::Store(0, None)),
    Do(Instr::Done),
    To(Ran(Outcome::Done, [2, 0, 0, 0, 0, 0])),
    // a jump is made if the top is zero
    Do(Instr::Const(0)),
    Do(Instr::JumpIfNot(4)),
    Do(Instr::Const(1)),
    Do(Instr::Jump(5)),
    Do(Instr::Const(2)),
    Do(Instr::Store(0, None)),
    Do(Instr::Done),
    To(Ran(Outcome::Done, [2, 0, 0, 0, 0, 0])),
    Do(Instr::Const(1)),
    Do(Instr::JumpIfNot(4)),
    Do(Instr::Const(1)),
    Do(Instr::Jump(5)),
    Do(Instr::Const(2)),
    Do(Instr::Store(0, None)),
    Do(Instr::Done),
    To(Ran(Outcome::Done, [1, 0, 0, 0, 0, 0])),
    Do(Instr::Const(-1)),
    Do(Instr::JumpIfNot(4)),
    Do(Instr::Const(1)),
    Do(Instr::Jump(5)),
    Do(Instr::Const(2)),
    Do(Instr::Store(0, None)),
    Do(Instr::Done),
    To(Ran(Outcome::Done, [1, 0, 0, 0, 0, 0])),
    Do(Instr::Const(LEAST)),
    Do(Instr::JumpIfNot(4)),
    Do(Instr::Const(1)),
    Do(Instr::Jump(5)),
    Do(Instr::Const(2)),
    Do(Instr::Store(0, None)),
    Do(Instr::Done),
    To(Ran(Outcome::Done, [1, 0, 0, 0, 0, 0])),
    Do(Instr::Const(4294967296)),
    Do(Instr::JumpIfNot(4)),
    Do(Instr::Const(1)),
    Do(Instr::Jump(5)),
    Do(Instr::Const(2)),
    Do(Instr::Store(0, None)),
    Do(Instr::Done),
    To(Ran(Outcome::Done, [1, 0, 0, 0, 0, 0])),
    Do(Instr::Const(18446744073709551616)),
    Do(Instr::JumpIfNot(4)),
    Do(Instr::Const(1)),
    Do(Instr::Jump(5)),
    Do(Instr::Const(2)),
    Do(Instr::Store(0, None)),
    Do(Instr::Done),
    To(Ran(Outcome::Done, [1, 0, 0, 0, 0, 0])),
    Do(Instr::Jump(9)),
    To(Bad(0)),
    Do(Instr::Jump(0)),
    To(Bad(0)),
];

/// A loop that counts cell 0 down to 0, with a turn each time, and then stores 7 in cell 1.
const COUNT_DOWN: Frame<'static> = Frame {
    cells: 6,
    routines: &[],
    entries: &[0],
    entry: 0,
    before: &[],
    after: &[
        Instr::Store(0, None),
        Instr::Turn,
        Instr::Load(0),
        Instr::Const(1),
        Instr::Sub,
        Instr::Store(0, None),
        Instr::Load(0),
        Instr::JumpIfNot(10),
        Instr::Jump(2),
        Instr::Const(7),
        Instr::Store(1, None),
        Instr::Done,
    ],
};

/// As many turns as the limit says, and one more.
const TURNS: &[Item] = &[
    Do(Instr::Const(1048576)),
    To(Ran(Outcome::Done, [0, 7, 0, 0, 0, 0])),
    Do(Instr::Const(1048577)),
    To(Ran(Outcome::Trap(Trap::TurnLimit), [1, 0, 0, 0, 0, 0])),
];

/// Routine 0 leaves 3 and 4, routine 1 nothing and stores 9, routine 2 what routine 0 leaves, less the other.
const LEAVING: &[Routine] = &[
    Routine {
        start: 0,
        results: 2,
    },
    Routine {
        start: 3,
        results: 0,
    },
    Routine {
        start: 6,
        results: 1,
    },
];

/// Their code, and that of the entries that call each of them.
const CALLING: &[Instr] = &[
    Instr::Const(3),
    Instr::Const(4),
    Instr::Return,
    Instr::Const(9),
    Instr::Store(1, None),
    Instr::Return,
    Instr::Call(0),
    Instr::Sub,
    Instr::Call(1),
    Instr::Return,
    Instr::Call(0),
    Instr::Sub,
    Instr::Store(0, None),
    Instr::Done,
    Instr::Call(1),
    Instr::Const(0),
    Instr::Answer,
    Instr::Const(100),
    Instr::Call(2),
    Instr::Add,
    Instr::Answer,
    Instr::Const(100),
    Instr::Call(2),
    Instr::Add,
    Instr::Store(0, None),
    Instr::Done,
];

const CALLS: Frame<'static> = Frame {
    cells: 2,
    routines: LEAVING,
    entries: &[10, 14, 17, 21],
    entry: 10,
    before: CALLING,
    after: &[],
};

/// An entry, and what the run from there comes to.
const CALLED: &[Item] = &[
    From(10),
    To(Ran(Outcome::Done, [-1, 0, 0, 0, 0, 0])),
    From(14),
    To(Ran(Outcome::False, [0, 9, 0, 0, 0, 0])),
    From(17),
    To(Ran(Outcome::True, [0, 9, 0, 0, 0, 0])),
    From(21),
    To(Ran(Outcome::Done, [99, 9, 0, 0, 0, 0])),
    From(0),
    To(Unfit),
    From(3),
    To(Unfit),
    From(11),
    To(Unfit),
    From(26),
    To(Unfit),
];

#[test]
fn runs_end_by_a_trap_an_answer_or_a_firing(rt: HostRuntime) {
    hold(&rt, rt.alloc(), &[(ALONE, ENDED), (CALLS, CALLED)]);
}

#[test]
fn as_many_turns_are_made_as_the_limit_says(rt: HostRuntime) {
    assert!(rt; MAX_TURNS == 1048576);
    hold(&rt, rt.alloc(), &[(COUNT_DOWN, TURNS)]);
}
