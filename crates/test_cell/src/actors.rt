//! Actors that do nothing.

use code_ir::{ActorCode, Admitted, admit, are_few, are_sized};
use lowered_actor::{Lowered, Parts};
use priority_order::close;
use rvc_base::Memory;
use schedule_fsm::build;
use std::alloc::Global;

/// Code without an instruction.
fn no_code(alloc: Global) -> Result<Admitted, Memory> {
    let code = ActorCode {
        instrs: Vec::new(alloc),
        routines: Vec::new(alloc),
        entries: Vec::new(alloc),
        cells: 0,
    };
    if !are_few(&code) || !are_sized(&code.instrs) {
        return Err(Memory);
    }
    admit(alloc, code).map_err(|_fault| Memory)
}

/// An actor without actions, with so many input and output ports.
pub(crate) fn idle(alloc: Global, ins: u32, outs: u32) -> Result<Lowered, Memory> {
    let parts = Parts {
        code: no_code(alloc)?,
        fsm: build(alloc, &[], &[], 1).map_err(|_fault| Memory)?,
        order: close(alloc, &[], 0).map_err(|_fault| Memory)?,
        actions: Vec::new(alloc),
        first: Vec::new(alloc),
        kept: 0,
        start: 0,
        saved: Vec::new(alloc),
        ins,
        outs,
    };
    Lowered::of_straight_lines(alloc, parts).map_err(|_unfit| Memory)
}
