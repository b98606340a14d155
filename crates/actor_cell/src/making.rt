//! What a new cell is made of.

ghost use Rattle.std.specs.Prelude.{◌≡◌, ◌≤◌, All, IfOk, length};
ghost use Rattle.code_ir.specs.Code.{Code};
ghost use Rattle.action_machine.specs.Kept.{IsMadeFor};
ghost use Rattle.actor_cell.specs.Queues.{AreFresh};

use crate::outbox::Outbox;
use action_machine::{Cells, cells};
use lowered_actor::Lowered;
use rvc_base::{Memory, Num};
use std::alloc::Global;
use token_ring::Ring;

/// Empty queues of these capacities.
pub(crate) fn inboxes(alloc: Global, capacities: &[u32]) -> Result<Vec<Ring>, Memory>
    requires { All (λ capacity. 1 ≤ capacity) capacities.now }
    ensures { IfOk result (λ rings. AreFresh capacities.now rings.items) }
{
    let mut rings = Vec::new(alloc);
    for &capacity in capacities {
        rings.push(Ring::new(alloc, capacity)?)?;
    }
    Ok(rings)
}

/// Empty outboxes of these capacities.
pub(crate) fn outboxes(alloc: Global, capacities: &[u32]) -> Result<Vec<Outbox>, Memory>
    ensures { IfOk result (λ outboxes. AreFresh capacities.now outboxes.items) }
{
    let mut outboxes = Vec::new(alloc);
    for &capacity in capacities {
        outboxes.push(Outbox::new(alloc, capacity)?)?;
    }
    Ok(outboxes)
}

/// The cells of an actor's code, with what they hold at first.
pub(crate) fn first_cells(alloc: Global, actor: &Lowered) -> Result<Cells, Memory>
    ensures first { IfOk result (λ cells. cells.numbers ≡ actor.now.first) }
    ensures made { IfOk result (IsMadeFor actor.now.code) }
{
    let mut cells = cells(alloc, actor.code())?;
    set_each(&mut cells, actor.first(), actor.code().cells());
    Ok(cells)
}

/// Puts these numbers into the cells.
fn set_each(cells: &mut Cells, numbers: &[Num], count: u32)
    requires count { length numbers.now ≡ count }
    requires size { length cells.old.numbers ≡ count }
    ensures numbers { cells.new.numbers ≡ numbers.now }
    ensures made { (code : Code) → IsMadeFor code cells.old → IsMadeFor code cells.new }
{
    for k in 0..count {
        cells.set(k, numbers[k as usize]);
    }
}
