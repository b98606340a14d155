//! Small networks that are ready to be run.

ghost use Rattle.std.specs.Prelude.{IfOk, map};
ghost use Rattle.actor_cell.specs.Core.{seen};
ghost use Rattle.network_runner.specs.Asking.{CanRun};

use crate::networks::{Net, actors, wiring};
use crate::{Ready, ready_cells};
use actor_cell::Cell;
use net_model::Wiring;
use round_runner::Plan;
use rvc_base::Memory;
use std::alloc::Global;

/// The cells of a network, or `Memory` if it can't be run.
fn cells(alloc: Global, net: Net, wiring: &Wiring, plan: Plan) -> Result<Vec<Cell>, Memory>
    ensures { IfOk result (λ cells. CanRun (map seen cells.items) wiring.now plan) }
{
    let actors = actors(alloc, net)?;
    match ready_cells(alloc, &actors, wiring, plan)? {
        Some(cells) => Ok(cells),
        None => Err(Memory),
    }
}

/// A network that can be run by a plan, with a channel for each output if `open`.
///
/// # Errors
///
/// `Memory` if memory runs out, or it can't be run by that plan.
pub fn ready(alloc: Global, net: Net, plan: Plan, open: bool) -> Result<Ready, Memory>
    ensures { IfOk result (λ ready. CanRun (map seen ready.cells.items) ready.wiring ready.plan) }
{
    let wiring = wiring(alloc, net, open)?;
    let cells = cells(alloc, net, &wiring, plan)?;
    Ok(Ready {
        cells,
        wiring,
        plan,
    })
}
