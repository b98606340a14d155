//! Actors in code, of their parts.

use crate::programs::{Frame, admitted};
use code_ir::Instr;
use lowered_actor::{ActionCode, Lowered, Parts, StateCell, Unfit};
use priority_order::Order;
use rvc_base::Num;
use schedule_fsm::Fsm;
use std::alloc::Global;
use std::process::Abort;

/// An action: how many tokens it takes, and the entries of its guards.
pub(crate) struct Action<'a> {
    pub needs: u32,
    pub guards: &'a [u32],
}

/// An actor with one input port. Each of its actions fires at one entry, and sends as many tokens, from the same cells.
#[derive(Clone, Copy)]
pub(crate) struct Actor<'a> {
    pub frame: Frame<'a>,
    pub actions: &'a [Action<'a>],
    pub gives: &'a [u32],
    pub sends: &'a [u32],
    pub first: &'a [Num],
    pub kept: u32,
    pub saved: &'a [StateCell],
    pub outs: u32,
}

fn actions<R: Abort>(rt: &R, alloc: Global, actor: &Actor<'_>) -> Vec<ActionCode> {
    let mut actions = Vec::new(alloc);
    for action in actor.actions {
        let action = ActionCode {
            needs: Vec::from_slice(alloc, &[action.needs]).expect(rt, "memory"),
            gives: Vec::from_slice(alloc, actor.gives).expect(rt, "memory"),
            guards: Vec::from_slice(alloc, action.guards).expect(rt, "memory"),
            fire: actor.frame.entry,
            sends: Vec::from_slice(alloc, actor.sends).expect(rt, "memory"),
        };
        actions.push(action).expect(rt, "memory");
    }
    actions
}

/// The actor with an automaton, an order of its actions, and instructions in its frame, or why it is none.
pub(crate) fn lowered<R: Abort>(
    rt: &R,
    alloc: Global,
    actor: &Actor<'_>,
    instrs: &[Instr],
    fsm: Fsm,
    order: Order,
) -> Result<Box<Lowered>, Unfit> {
    let Ok(code) = admitted(rt, alloc, &actor.frame, instrs) else {
        panic!(rt; "{instrs:?}")
    };
    let parts = Parts {
        code: Box::into_inner(code),
        fsm,
        order,
        actions: actions(rt, alloc, actor),
        first: Vec::from_slice(alloc, actor.first).expect(rt, "memory"),
        kept: actor.kept,
        start: 0,
        saved: Vec::from_slice(alloc, actor.saved).expect(rt, "memory"),
        ins: 1,
        outs: actor.outs,
    };
    match Lowered::of_straight_lines(alloc, parts) {
        Ok(lowered) => Ok(Box::new(alloc, lowered).expect(rt, "memory")),
        Err(unfit) => Err(unfit),
    }
}
