//! Actors made of their tables.

use crate::codes::SHORT;
use crate::draft::{Draft, Shape};
use crate::sample::Sample;
use code_ir::{ActorCode, Admitted, Instr, admit, are_few, are_sized};
use lowered_actor::{ActionCode, Lowered, Parts};
use rvc_base::{Memory, Num};
use std::alloc::Global;

/// Where each token of a block goes.
const ORDER: [u32; 64] = [
    0, 1, 8, 16, 9, 2, 3, 10, 17, 24, 32, 25, 18, 11, 4, 5, 12, 19, 26, 33, 40, 48, 41, 34, 27, 20,
    13, 6, 7, 14, 21, 28, 35, 42, 49, 56, 57, 50, 43, 36, 29, 22, 15, 23, 30, 37, 44, 51, 58, 59,
    52, 45, 38, 31, 39, 46, 53, 60, 61, 54, 47, 55, 62, 63,
];

/// Each token of a block is stored where it goes.
fn zigzag(alloc: Global) -> Result<Vec<Instr>, Memory> {
    let mut instrs = Vec::new(alloc);
    for k in 0..64_u32 {
        instrs.push(Instr::Token(0, k))?;
        instrs.push(Instr::Store(ORDER[k as usize], SHORT))?;
    }
    instrs.push(Instr::Done)?;
    Ok(instrs)
}

fn instrs(alloc: Global, sample: Sample, draft: &Draft) -> Result<Vec<Instr>, Memory> {
    if sample == Sample::Zigzag {
        return zigzag(alloc);
    }
    Ok(Vec::from_slice(alloc, draft.instrs)?)
}

fn code(alloc: Global, instrs: Vec<Instr>, draft: &Draft) -> Result<Admitted, Memory> {
    let code = ActorCode {
        instrs,
        routines: Vec::new(alloc),
        entries: Vec::from_slice(alloc, draft.entries)?,
        cells: draft.cells,
    };
    if !are_sized(&code.instrs) || !are_few(&code) {
        return Err(Memory);
    }
    admit(alloc, code).map_err(|_fault| Memory)
}

fn actions(alloc: Global, shapes: &[Shape]) -> Result<Vec<ActionCode>, Memory> {
    let mut actions = Vec::new(alloc);
    for shape in shapes {
        actions.push(ActionCode {
            needs: Vec::from_slice(alloc, shape.needs)?,
            gives: Vec::from_slice(alloc, &[shape.gives])?,
            guards: Vec::from_slice(alloc, shape.guards)?,
            fire: shape.fire,
            sends: Vec::from_slice(alloc, &[shape.sends])?,
        })?;
    }
    Ok(actions)
}

/// So many cells that hold 0.
fn zeros(alloc: Global, cells: u32) -> Result<Vec<Num>, Memory> {
    let mut first = Vec::new(alloc);
    for _cell in 0..cells {
        let zero: Num = 0;
        first.push(zero)?;
    }
    Ok(first)
}

/// A sample as a lowered actor.
///
/// # Errors
///
/// `Memory` if memory runs out, or if its parts can't be put together.
pub fn lowered(alloc: Global, sample: Sample) -> Result<Lowered, Memory> {
    let draft = sample.draft();
    let instrs = instrs(alloc, sample, &draft)?;
    let code = code(alloc, instrs, &draft)?;
    let parts = Parts {
        code,
        fsm: sample.schedule(alloc)?,
        order: sample.order(alloc)?,
        actions: actions(alloc, draft.actions)?,
        first: zeros(alloc, draft.cells)?,
        kept: draft.kept,
        start: draft.start,
        saved: Vec::from_slice(alloc, draft.saved)?,
        ins: draft.ins,
        outs: 1,
    };
    Lowered::of_straight_lines(alloc, parts).map_err(|_unfit| Memory)
}
