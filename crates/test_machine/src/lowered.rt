//! A small actor in code, and bodies that don't keep the facts.

use crate::actors::{Action, Actor, lowered};
use crate::programs::Frame;
use code_ir::Instr;
use lowered_actor::{Lowered, StateCell, Unfit};
use priority_order::close;
use rvc_base::Scalar;
use schedule_fsm::{Step, build};
use std::alloc::Global;
use std::process::Abort;

const BYTE: Option<Scalar> = Some(Scalar::Uint(8));

/// An action that takes one token, with a guard at 0.
const ACTION: Action<'static> = Action {
    needs: 1,
    guards: &[0],
};

/// The token is less than 9.
const LESS: &[Instr] = &[
    Instr::Token(0, 0),
    Instr::Const(9),
    Instr::Lt,
    Instr::Answer,
];

const LOAD: Instr = Instr::Load(1);

const SUM: &[Instr] = &[
    Instr::Store(1, BYTE),
    Instr::Load(1),
    Instr::Store(2, BYTE),
    Instr::Done,
];

const TOKEN: &[Instr] = &[Instr::Store(2, BYTE), Instr::Done];

const UNSENT: &[Instr] = &[Instr::Store(1, BYTE), Instr::Done];

const CONSTANT: &[Instr] = &[
    Instr::Store(0, BYTE),
    Instr::Load(0),
    Instr::Store(2, BYTE),
    Instr::Done,
];

const KEEPING: &[Instr] = &[
    Instr::Const(1),
    Instr::Store(1, BYTE),
    Instr::Const(1),
    Instr::Answer,
];

const BEHIND: &[Instr] = &[
    Instr::Token(0, 1),
    Instr::Const(9),
    Instr::Lt,
    Instr::Answer,
];

/// How many actions may be candidates in state 0 and in state 1, and where the first one of state 1 fires.
type Found = Result<(usize, usize, u32), Unfit>;

/// A guard, the first instruction of a firing that pushes the sum of what it loads and the token, those after the sum,
/// how many state cells there are, and what is found.
type Row = (&'static [Instr], Instr, &'static [Instr], u32, Found);

/// Cell 1, which is saved.
const COUNT: StateCell = StateCell {
    cell: 1,
    kind: Scalar::Uint(8),
};

/// The other state cell, of a type of 65 bits.
const TOO_WIDE: StateCell = StateCell {
    cell: 0,
    kind: Scalar::Int(65),
};

/// The same cell once more, as a truth value.
const AGAIN: StateCell = StateCell {
    cell: 1,
    kind: Scalar::Bool,
};

const ROWS: &[Row] = &[
    (LESS, LOAD, SUM, 2, Ok((2, 1, 4))),
    (LESS, LOAD, TOKEN, 2, Ok((2, 1, 4))),
    // its token to send isn't written
    (LESS, LOAD, UNSENT, 2, Err(Unfit::NotStraight)),
    // it reads a cell that is no state cell
    (LESS, Instr::Load(2), TOKEN, 2, Err(Unfit::NotStraight)),
    // a guard writes in a state cell
    (KEEPING, LOAD, TOKEN, 2, Err(Unfit::NotStraight)),
    // a guard reads a token that the action doesn't take
    (BEHIND, LOAD, TOKEN, 2, Err(Unfit::NotStraight)),
    // more state cells than cells
    (LESS, LOAD, TOKEN, 4, Err(Unfit::DoNotFit)),
    // a firing writes in a state cell that isn't saved
    (LESS, LOAD, CONSTANT, 2, Err(Unfit::NotStraight)),
];

fn candidates<R: Abort>(rt: &R, lowered: &Lowered) -> (usize, usize, u32) {
    assert!(rt; lowered.fsm().states() == 2);
    let there = lowered.candidates(1);
    let fire = match there {
        [first, ..] => lowered.action(*first).fire,
        [] => 0,
    };
    (lowered.candidates(0).len(), there.len(), fire)
}

/// What an actor of two such actions is, the first free and the second eligible in state 0 alone. The second is above
/// the first. Each fires at 4 and sends a token, which is then in cell 2. Its state cells are 0 and 1, and these are saved.
fn made<R: Abort>(rt: &R, alloc: Global, row: &Row, saved: &[StateCell]) -> Found {
    let (guard, load, end, kept, _want) = row;
    let actor = Actor {
        frame: Frame {
            cells: 3,
            routines: &[],
            entries: &[0, 4],
            entry: 4,
            before: guard,
            after: end,
        },
        actions: &[ACTION, ACTION],
        gives: &[1],
        sends: &[2],
        first: &[0, 0, 0],
        kept: *kept,
        saved,
        outs: 1,
    };
    let step = Step {
        from: 0,
        action: 1,
        to: 1,
    };
    let fsm = build(alloc, &[step], &[true, false], 2).expect(rt, "it has one target");
    let order = close(alloc, &[(1, 0)], 2).expect(rt, "it has no cycle");
    let instrs = [*load, Instr::Token(0, 0), Instr::Add];
    match lowered(rt, alloc, &actor, &instrs, fsm, order) {
        Ok(lowered) => Ok(candidates(rt, &lowered)),
        Err(unfit) => Err(unfit),
    }
}

#[test]
fn straight_lines_make_an_actor(rt: HostRuntime) {
    for row in ROWS {
        assert!(rt; made(&rt, rt.alloc(), row, &[COUNT]) == row.4, "{row:?}");
    }
}

#[test]
fn saved_cells_are_different_ones_of_some_size(rt: HostRuntime) {
    let row = &ROWS[0];
    assert!(rt; made(&rt, rt.alloc(), row, &[COUNT, AGAIN]) == Err(Unfit::DoNotFit));
    assert!(rt; made(&rt, rt.alloc(), row, &[TOO_WIDE, COUNT]) == Err(Unfit::DoNotFit));
}
