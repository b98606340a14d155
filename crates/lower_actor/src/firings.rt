//! The firing of an action as code, with cells that are cleared before it if that is needed.

ghost use Rattle.std.specs.Prelude.{◌≡◌, ◌<◌, ◌≤◌, IfErr, IfOk, None, OnOk, length, true};
ghost use Rattle.cal_model.specs.Sound.{IsSound};
ghost use Rattle.cal_model.specs.View.{actor_of};
ghost use Rattle.lower_base.specs.declared.fault.LowerFault.TheVariants.{Memory};
ghost use Rattle.lower_base.specs.Callees.{functions_view};
ghost use Rattle.lower_stmt.specs.Procedures.{routines_of};
ghost use Rattle.action_lower.specs.FiringWords.{IsFiringFaultAt, left_out_of};
ghost use Rattle.action_lower.specs.Seats.{state_cells};
ghost use Rattle.lower_actor.specs.Coded.{IsMore, PutsFiring};
ghost use Rattle.lower_actor.specs.ClearedBodies.{ClearedFiring};
ghost use Rattle.lower_actor.specs.Drafted.{IsServed};

use action_lower::{Firing, clear_at, lower_firing};
use cal_model::Bound;
use code_ir::Instr;
use lower_base::{Callee, Draft, LowerFault, next_place, put};
use lower_stmt::ProcCallee;
use std::alloc::Global;

/// Appends the code of the firing of an action.
///
/// If that is wanted, or if it may fill a list item by item, all cells behind the `kept` state cells are cleared first:
/// so nothing depends on what they held before.
pub(crate) fn put_firing(
    alloc: Global,
    b: &Bound,
    callees: &[Callee],
    procedures: &[ProcCallee],
    kept: u32,
    clear: bool,
    action: u16,
    draft: &mut Draft,
) -> Result<Firing, LowerFault>
    requires sound { IsSound (actor_of b.now) }
    requires action { action < length b.now.actions.items }
    requires kept { kept ≡ state_cells (actor_of b.now) }
    requires served { IsServed (actor_of b.now) (routines_of callees.now procedures.now) draft.old }
    ensures cleared { IfOk result (λ f. clear ≡ true → ClearedFiring (actor_of b.now) action
        (functions_view callees.now) draft.old.cells f.entry f.firsts.items draft.new) }
    ensures puts { IfOk result (λ f. PutsFiring (actor_of b.now) action f draft.old draft.new) }
    ensures more { OnOk result (IsMore draft.old draft.new) }
    ensures whole { OnOk result
        (left_out_of (routines_of callees.now procedures.now) b.now action ≡ None) }
    ensures fault { IfErr result
        (IsFiringFaultAt callees.now procedures.now b.now action draft.new) }
{
    if clear {
        return put_cleared(alloc, b, callees, procedures, kept, action, draft);
    }
    let fills = may_fill(alloc, b, callees, procedures, kept, action, draft)?;
    if fills {
        return put_cleared(alloc, b, callees, procedures, kept, action, draft);
    }
    put_plain(alloc, b, callees, procedures, action, draft)
}

/// Appends it as it is.
fn put_plain(
    alloc: Global,
    b: &Bound,
    callees: &[Callee],
    procedures: &[ProcCallee],
    action: u16,
    draft: &mut Draft,
) -> Result<Firing, LowerFault>
    requires sound { IsSound (actor_of b.now) }
    requires action { action < length b.now.actions.items }
    requires served { IsServed (actor_of b.now) (routines_of callees.now procedures.now) draft.old }
    ensures puts { IfOk result (λ f. PutsFiring (actor_of b.now) action f draft.old draft.new) }
    ensures more { OnOk result (IsMore draft.old draft.new) }
    ensures whole { OnOk result
        (left_out_of (routines_of callees.now procedures.now) b.now action ≡ None) }
    ensures fault { IfErr result
        (IsFiringFaultAt callees.now procedures.now b.now action draft.new) }
{
    let firing = lower_firing(alloc, b, action, callees, procedures, draft)?;
    Ok(firing)
}

/// Appends it behind an instruction that clears all cells behind the state cells.
fn put_cleared(
    alloc: Global,
    b: &Bound,
    callees: &[Callee],
    procedures: &[ProcCallee],
    kept: u32,
    action: u16,
    draft: &mut Draft,
) -> Result<Firing, LowerFault>
    requires sound { IsSound (actor_of b.now) }
    requires action { action < length b.now.actions.items }
    requires kept { kept ≡ state_cells (actor_of b.now) }
    requires served { IsServed (actor_of b.now) (routines_of callees.now procedures.now) draft.old }
    ensures cleared { IfOk result (λ f. ClearedFiring (actor_of b.now) action
        (functions_view callees.now) draft.old.cells f.entry f.firsts.items draft.new) }
    ensures puts { IfOk result (λ f. PutsFiring (actor_of b.now) action f draft.old draft.new) }
    ensures more { OnOk result (IsMore draft.old draft.new) }
    ensures whole { OnOk result
        (left_out_of (routines_of callees.now procedures.now) b.now action ≡ None) }
    ensures fault { IfErr result
        (IsFiringFaultAt callees.now procedures.now b.now action draft.new) }
{
    let entry = next_place(draft)?;
    put(draft, Instr::Zero(0, 0))?;
    let firing = lower_firing(alloc, b, action, callees, procedures, draft)?;
    clear_at(draft, entry as usize, kept);
    Ok(Firing {
        entry,
        firsts: firing.firsts,
    })
}

/// Whether the firing of an action, or a routine, may fill a list item by item in cells behind the state cells.
fn may_fill(
    alloc: Global,
    b: &Bound,
    callees: &[Callee],
    procedures: &[ProcCallee],
    kept: u32,
    action: u16,
    draft: &Draft,
) -> Result<bool, LowerFault>
    requires sound { IsSound (actor_of b.now) }
    requires action { action < length b.now.actions.items }
    requires cells { state_cells (actor_of b.now) ≤ draft.now.cells }
    ensures memory { IfErr result (λ fault. fault ≡ Memory) }
{
    if routines_fill(draft, kept) {
        return Ok(true);
    }
    let mut trial = Draft {
        instrs: Vec::new(alloc),
        routines: Vec::new(alloc),
        cells: draft.cells,
    };
    match lower_firing(alloc, b, action, callees, procedures, &mut trial) {
        Ok(_firing) => Ok(fill(&trial.instrs, kept)),
        Err(LowerFault::Memory) => Err(LowerFault::Memory),
        Err(LowerFault::TooLong) => Ok(false),
        Err(LowerFault::TooManyCells) => Ok(false),
        Err(LowerFault::NotLowered { at: _ }) => Ok(false),
    }
}

/// Whether one of these instructions fills cells behind the state cells item by item.
fn fill(instrs: &[Instr], kept: u32) -> bool {
    for instr in instrs {
        if fills(instr, kept) {
            return true;
        }
    }
    false
}

/// Whether an instruction writes some of several cells behind the state cells.
fn fills(instr: &Instr, kept: u32) -> bool {
    match *instr {
        Instr::StoreAt(cell, _, _) => cell >= kept,
        Instr::CopyTo(cell, _, _, _, _) => cell >= kept,
        _ => false,
    }
}

/// Whether a routine fills cells so: they stand up to the first return behind the start of the last one.
fn routines_fill(draft: &Draft, kept: u32) -> bool {
    let Some(last) = draft.routines.last() else {
        return false;
    };
    for place in 0..draft.instrs.len() {
        let instr = &draft.instrs[place];
        if fills(instr, kept) {
            return true;
        }
        if place >= last.start as usize && ends(instr) {
            return false;
        }
    }
    false
}

/// Whether it ends a routine.
fn ends(instr: &Instr) -> bool {
    match *instr {
        Instr::Return => true,
        _ => false,
    }
}
