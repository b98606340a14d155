//! An actor in code, and what is chosen of it.

use crate::actors::{Action, Actor, lowered};
use crate::programs::{Frame, Ports};
use action_machine::cells;
use code_ir::Instr;
use guard_select::{Choice, is_exposed, select};
use lowered_actor::Lowered;
use priority_order::close;
use rvc_base::{ActId, Num, Trap};
use schedule_fsm::{Step, build};
use std::alloc::Global;
use std::process::Abort;

/// `Token < n` from 0 and 4 on, `100 / (token - n) < 50` from 8 and 16 on, and a firing at 24 that does nothing.
const CODE: &[Instr] = &[
    Instr::Token(0, 0),
    Instr::Const(10),
    Instr::Lt,
    Instr::Answer,
    Instr::Token(0, 0),
    Instr::Const(30),
    Instr::Lt,
    Instr::Answer,
    Instr::Const(100),
    Instr::Token(0, 0),
    Instr::Const(20),
    Instr::Sub,
    Instr::Div,
    Instr::Const(50),
    Instr::Lt,
    Instr::Answer,
    Instr::Const(100),
    Instr::Token(0, 0),
    Instr::Const(40),
    Instr::Sub,
    Instr::Div,
    Instr::Const(50),
    Instr::Lt,
    Instr::Answer,
    Instr::Done,
];

/// Action 2 takes two tokens, the others one each. Their firing does nothing.
const ACTOR: Actor<'static> = Actor {
    frame: Frame {
        cells: 1,
        routines: &[],
        entries: &[0, 4, 8, 16, 24],
        entry: 24,
        before: CODE,
        after: &[],
    },
    actions: &[
        Action {
            needs: 1,
            guards: &[0],
        },
        Action {
            needs: 1,
            guards: &[4, 8],
        },
        Action {
            needs: 2,
            guards: &[],
        },
        Action {
            needs: 1,
            guards: &[4, 16],
        },
    ],
    gives: &[],
    sends: &[],
    first: &[0],
    kept: 0,
    saved: &[],
    outs: 0,
};

/// Actions 0, 1 and 3 are eligible in state 0, action 2 in state 1.
const STEPS: [Step; 4] = [
    Step {
        from: 0,
        action: 0,
        to: 0,
    },
    Step {
        from: 0,
        action: 1,
        to: 0,
    },
    Step {
        from: 1,
        action: 2,
        to: 0,
    },
    Step {
        from: 0,
        action: 3,
        to: 1,
    },
];

/// A state, the tokens before the actor, what is chosen, and whether action 1 is exposed.
type Row = (u16, &'static [Num], Choice, bool);

const ROWS: &[Row] = &[
    (0, &[5], Choice::Fire(ActId(0)), false),
    (0, &[12], Choice::Fire(ActId(1)), true),
    (0, &[20], Choice::Trap(ActId(1), Trap::DivideByZero), true),
    // the first guard of actions 1 and 3 is false, the second of action 3 would trap
    (0, &[40], Choice::Wait, true),
    // the quotient is 50 for action 1
    (0, &[22], Choice::Fire(ActId(3)), true),
    (0, &[], Choice::Wait, false),
    (1, &[5], Choice::Wait, false),
    (1, &[5, 6], Choice::Fire(ActId(2)), false),
];

/// What is chosen in a state, and whether action 1 is exposed.
fn answer<R: Abort>(
    rt: &R,
    alloc: Global,
    actor: &Lowered,
    state: u16,
    tokens: &[Num],
) -> (Choice, bool) {
    let mut cells = cells(alloc, actor.code()).expect(rt, "memory");
    assert!(rt; tokens.len() < 8);
    assert!(rt; state < actor.fsm().states());
    assert!(rt; actor.actions() > 1);
    let ports = Ports {
        first: tokens,
        second: &[],
    };
    let choice = select(actor, &mut cells, state, &ports);
    (choice, is_exposed(actor, 1, &mut cells, state, &ports))
}

/// Action 0 is above action 1.
#[test]
fn the_first_of_the_line_whose_guards_are_not_false(rt: HostRuntime) {
    let alloc = rt.alloc();
    let fsm = build(alloc, &STEPS, &[false, false, false, false], 2).expect(
        &rt,
        "it has one target",
    );
    let order = close(alloc, &[(0, 1)], 4).expect(&rt, "it has no cycle");
    let actor = lowered(&rt, alloc, &ACTOR, &[], fsm, order).expect(&rt, "it fits");
    for &(state, tokens, choice, exposed) in ROWS {
        let found = answer(&rt, alloc, &actor, state, tokens);
        assert!(rt; found == (choice, exposed), "{state} {tokens:?}");
    }
}
