//! The code of all actions, and the numbers in its cells at first.

ghost use Rattle.std.specs.Prelude.{◌≡◌, ◌≤◌, IfErr, IfOk, length, take};
ghost use Rattle.cal_model.specs.Selection.{start_of};
ghost use Rattle.cal_model.specs.Sound.{IsSound};
ghost use Rattle.cal_model.specs.View.{actor_of};
ghost use Rattle.action_lower.specs.Seats.{numbers_of_vars, state_cells};
ghost use Rattle.lower_actor.specs.Coded.{AreBodiesOf, IsCodeOf, all_entries};
ghost use Rattle.lower_actor.specs.Faults.{OnlyMemory};

use crate::fault::ActorFault;
use crate::laws::bodies_are_admitted;
use action_lower::first_cells;
use cal_model::Bound;
use code_ir::{ActorCode, Admitted, CodeFault, admit, are_few};
use lower_base::Draft;
use lowered_actor::ActionCode;
use rvc_base::{Memory, Num};
use std::alloc::{AllocError, Global};

/// The code of a draft, with the entries of the actions.
pub(crate) fn admitted(
    alloc: Global,
    draft: Draft,
    actions: &[ActionCode],
) -> Result<Admitted, ActorFault>
    requires bodies { AreBodiesOf actions.now draft }
    ensures code { IfOk result (IsCodeOf draft) }
    ensures entries { IfOk result (λ code. code.entries ≡ all_entries actions.now) }
    ensures fault { IfErr result OnlyMemory }
{
    // it tells that such bodies are admitted
    bodies_are_admitted();
    let entries = entries_of(alloc, actions)?;
    let code = ActorCode {
        instrs: draft.instrs,
        routines: draft.routines,
        entries,
        cells: draft.cells,
    };
    if !are_few(&code) {
        return Err(ActorFault::Memory);
    }
    match admit(alloc, code) {
        Ok(code) => Ok(code),
        Err(CodeFault::Bad { at: _ }) => unreachable!(),
        Err(CodeFault::Memory) => Err(ActorFault::Memory),
    }
}

/// The entries of actions: those of the guards of each, and that of its firing.
fn entries_of(alloc: Global, actions: &[ActionCode]) -> Result<Vec<u32>, AllocError>
    ensures { IfOk result (λ entries. entries.items ≡ all_entries actions.now) }
{
    let mut entries = Vec::new(alloc);
    let mut left = actions;
    'actions: while let Some((action, others)) = left.split_first() {
        entries.extend_from_slice(&action.guards)?;
        entries.push(action.fire)?;
        left = others;
    }
    Ok(entries)
}

/// What so many cells hold at first: those of the state what the variables begin with, and the others 0.
pub(crate) fn first_numbers(alloc: Global, b: &Bound, cells: u32) -> Result<Vec<Num>, Memory>
    requires sound { IsSound (actor_of b.now) }
    requires room { state_cells (actor_of b.now) ≤ cells }
    ensures first { IfOk result (λ first. take (state_cells (actor_of b.now)) first.items
        ≡ numbers_of_vars (start_of (actor_of b.now)).vars) }
    ensures size { IfOk result (λ first. length first.items ≡ cells) }
{
    let mut first = first_cells(alloc, b)?;
    for _k in first.len()..cells as usize {
        first.push(0)?;
    }
    Ok(first)
}
