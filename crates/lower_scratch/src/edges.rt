//! What is set behind an instruction.

ghost use Rattle.std.specs.Prelude.{◌≡◌, ℕ, ◌+◌, ◌<◌, ◌≤◌, true, IsTrue, Some};
ghost use Rattle.code_ir.specs.Typing.{goes_on, target};
ghost use Rattle.lowered_actor.specs.Actor.{actor_of};
ghost use Rattle.lower_scratch.specs.Fitting.{MayCall, MayEnter};
ghost use Rattle.lower_scratch.specs.Rows.{Flows, called, is_set, reads};

use crate::body::{Body, are_set, enters, is_set, row_at};
use crate::instrs::{called, goes_on, target, writes};
use code_ir::Instr;
use lowered_actor::Parts;

/// Whether what is set at a place, behind an instruction at another one, was set there or is written by it.
fn flows(kept: u32, body: &Body, instr: &Instr, from: usize, to: usize) -> bool
    ensures { IsTrue result → Flows kept body.now instr.now from to }
{
    let row = row_at(body, to);
    for k in 0..row.len() {
        let cell = body.low as usize + k;
        if row[k] && !is_set(kept, body, from, cell) && !writes(instr, cell) {
            return false;
        }
    }
    true
}

/// Whether what comes behind an instruction at the next place, if it may go on there, stays in the body.
pub(crate) fn next_fits(kept: u32, body: &Body, place: usize, instr: &Instr) -> bool
    requires { place < body.now.end }
    ensures { IsTrue result → goes_on instr.now ≡ true
        → (place + 1 < body.now.end) × Flows kept body.now instr.now place (place + 1) }
{
    let end = body.end;
    if !goes_on(instr) {
        return true;
    }
    place + 1 < end && flows(kept, body, instr, place, place + 1)
}

/// Whether a jump of an instruction, if it has one, stays in the body.
pub(crate) fn jump_fits(kept: u32, body: &Body, place: usize, instr: &Instr) -> bool
    ensures { IsTrue result → (t : ℕ) → target instr.now ≡ Some t
        → (body.now.begin ≤ t) × (t < body.now.end) × Flows kept body.now instr.now place t }
{
    match target(instr) {
        Some(to) => {
            let to = to as usize;
            body.begin <= to && to < body.end && flows(kept, body, instr, place, to)
        }
        None => true,
    }
}

/// Whether the routine of an instruction, if it calls one, may be called at its place.
pub(crate) fn call_fits(
    parts: &Parts,
    routines: &[Option<Body>],
    body: &Body,
    place: usize,
    instr: &Instr,
) -> bool
    ensures { IsTrue result → (r : ℕ) → called instr.now ≡ Some r
        → MayCall (actor_of parts.now) routines.now body.now place r }
{
    match called(instr) {
        Some(r) => may_call(parts, routines, body, place, r),
        None => true,
    }
}

/// Whether a routine may be called at a place.
fn may_call(parts: &Parts, routines: &[Option<Body>], body: &Body, place: usize, r: u32) -> bool
    ensures { IsTrue result → MayCall (actor_of parts.now) routines.now body.now place r }
{
    match routines.get(r as usize) {
        Some(callee) => may_enter(parts.kept, callee, body, place),
        None => false,
    }
}

/// Whether a routine is seen to keep the facts, and what it needs is set at a place.
fn may_enter(kept: u32, callee: &Option<Body>, body: &Body, place: usize) -> bool
    ensures { IsTrue result → MayEnter kept callee.now body.now place }
{
    match callee {
        Some(callee) => enters(kept, callee, body, place),
        None => false,
    }
}

/// Whether each cell that an instruction may read is set at its place.
pub(crate) fn reads_fit(kept: u32, body: &Body, place: usize, instr: &Instr) -> bool
    ensures { IsTrue result → (c : ℕ) → reads instr.now c ≡ true
        → is_set kept body.now place c ≡ true }
{
    match *instr {
        Instr::Load(cell) => is_set(kept, body, place, cell as usize),
        Instr::LoadAt(cell, count) => are_set(kept, body, place, cell, count),
        Instr::Copy(_, from, count, _) => are_set(kept, body, place, from, count),
        Instr::CopyTo(_, _, from, count, _) => are_set(kept, body, place, from, count),
        Instr::CopyFrom(_, from, count, _) => are_set(kept, body, place, from, count),
        _ => true,
    }
}
