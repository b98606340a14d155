//! Whether a body keeps the facts.

ghost use Rattle.std.specs.Prelude.{◌≡◌, ◌<◌, IsTrue, Some, slice_get};
ghost use Rattle.code_ir.specs.declared.instr.Instr.TheVariants as op;
ghost use Rattle.lowered_actor.specs.Actor.{action_of, actor_of};
ghost use Rattle.lowered_actor.specs.Facts.{Fits};
ghost use Rattle.lower_scratch.specs.Fitting.{AreSet, FitsAll, FitsAt, FitsBody, FitsHere, Sends};

use crate::body::{Body, Last, are_set};
use crate::edges::{call_fits, jump_fits, next_fits, reads_fit};
use crate::stores::may_stand;
use code_ir::Instr;
use lowered_actor::{ActionCode, Parts};

/// Whether a body keeps the facts of a firing or of a guard, as its rows show it: of one that takes so many tokens from
/// each port and ends so.
pub(crate) fn fits_body(
    parts: &Parts,
    routines: &[Option<Body>],
    firing: bool,
    needs: &[u32],
    last: Last,
    body: &Body,
) -> bool
    ensures { IsTrue result
        → FitsBody (actor_of parts.now) routines.now firing needs.now last body.now }
{
    if body.begin >= body.end {
        return false;
    }
    all_fit(parts, routines, firing, needs, last, body)
}

/// Whether each instruction of the body fits.
fn all_fit(
    parts: &Parts,
    routines: &[Option<Body>],
    firing: bool,
    needs: &[u32],
    last: Last,
    body: &Body,
) -> bool
    ensures { IsTrue result
        → FitsAll (actor_of parts.now) routines.now firing needs.now last body.now body.now.end }
{
    for place in body.begin..body.end {
        if !fits_here(parts, routines, firing, needs, last, body, place) {
            return false;
        }
    }
    true
}

/// Whether the instruction at a place of the body fits.
fn fits_here(
    parts: &Parts,
    routines: &[Option<Body>],
    firing: bool,
    needs: &[u32],
    last: Last,
    body: &Body,
    place: usize,
) -> bool
    requires { place < body.now.end }
    ensures { IsTrue result
        → FitsAt (actor_of parts.now) routines.now firing needs.now last body.now place }
{
    match parts.code.instrs().get(place) {
        Some(instr) => instr_fits(parts, routines, firing, needs, last, body, place, instr),
        None => true,
    }
}

/// Whether an instruction fits at a place of the body.
fn instr_fits(
    parts: &Parts,
    routines: &[Option<Body>],
    firing: bool,
    needs: &[u32],
    last: Last,
    body: &Body,
    place: usize,
    instr: &Instr,
) -> bool
    requires { place < body.now.end }
    ensures { IsTrue result → FitsHere (actor_of parts.now) routines.now firing needs.now last
        body.now place instr.now }
{
    if !may_stand(parts, firing, needs, last, instr) {
        return false;
    }
    if !reads_fit(parts.kept, body, place, instr) {
        return false;
    }
    if !next_fits(parts.kept, body, place, instr) {
        return false;
    }
    if !jump_fits(parts.kept, body, place, instr) {
        return false;
    }
    call_fits(parts, routines, body, place, instr)
}

/// Whether the cells of the tokens to send are set wherever a firing is done.
pub(crate) fn sends(parts: &Parts, action: &ActionCode, body: &Body) -> bool
    requires { Fits (actor_of parts.now) (action_of action.now) }
    ensures { IsTrue result
        → Sends (actor_of parts.now) (action_of action.now) body.now body.now.end }
{
    for place in body.begin..body.end {
        if !sends_at(parts, action, body, place) {
            return false;
        }
    }
    true
}

/// Whether they are at a place, if the firing is done there.
fn sends_at(parts: &Parts, action: &ActionCode, body: &Body, place: usize) -> bool
    requires { Fits (actor_of parts.now) (action_of action.now) }
    ensures { IsTrue result → slice_get (actor_of parts.now).code.instrs place ≡ Some op.Done
        → AreSet (actor_of parts.now) (action_of action.now) body.now place }
{
    match parts.code.instrs().get(place) {
        Some(instr) => done_sends(parts, action, body, place, instr),
        None => true,
    }
}

/// Whether they are behind an instruction, if the firing is done there.
fn done_sends(parts: &Parts, action: &ActionCode, body: &Body, place: usize, instr: &Instr) -> bool
    requires { Fits (actor_of parts.now) (action_of action.now) }
    ensures { IsTrue result → instr.now ≡ op.Done
        → AreSet (actor_of parts.now) (action_of action.now) body.now place }
{
    match *instr {
        Instr::Done => sends_are_set(parts, action, body, place),
        _ => true,
    }
}

/// Whether the cells of the tokens to send are set at a place.
fn sends_are_set(parts: &Parts, action: &ActionCode, body: &Body, place: usize) -> bool
    requires { Fits (actor_of parts.now) (action_of action.now) }
    ensures { IsTrue result → AreSet (actor_of parts.now) (action_of action.now) body.now place }
{
    for port in 0..parts.outs as usize {
        if !are_set(
            parts.kept,
            body,
            place,
            action.sends[port],
            action.gives[port],
        ) {
            return false;
        }
    }
    true
}
