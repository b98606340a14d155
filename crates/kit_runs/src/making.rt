//! Cells that are ready to be run.

ghost use Rattle.std.specs.Prelude.{◌≤◌, IfOk, IfSome, length, map};
ghost use Rattle.std.specs.Arc.{arc_value};
ghost use Rattle.actor_cell.specs.Core.{seen};
ghost use Rattle.network_runner.specs.Asking.{CanRun};
ghost use Rattle.net_model.specs.Limits.{max_instances};
ghost use Rattle.kit_runs.specs.Cells.{AreCellsOf, IsCellOf};

use crate::ends::actor_at;
use crate::fits::can_be_run;
use crate::rooms::rooms_of;
use actor_cell::Cell;
use lowered_actor::Lowered;
use net_model::{Link, Wiring};
use round_runner::Plan;
use rvc_base::Memory;
use std::alloc::Global;
use std::sync::Arc;

/// A cell of an actor that is leaf number `leaf`, with queues for the links at its ports.
fn cell_of(
    alloc: Global,
    actor: Arc<Lowered>,
    links: &[Link],
    leaf: u32,
    plan: Plan,
) -> Result<Cell, Memory>
    requires burst { 1 ≤ plan.burst }
    ensures { IfOk result (λ cell. IsCellOf (arc_value actor) links.now plan leaf (seen cell)) }
{
    let ins = rooms_of(alloc, links, true, leaf, actor.ins(), plan.grow, 1)?;
    let outs = rooms_of(alloc, links, false, leaf, actor.outs(), plan.grow, 0)?;
    Cell::new(alloc, actor, &ins, &outs, plan.burst)
}

/// A cell of each actor.
#[tactic(auto, using(crate::proofs::Celled::cells_more))]
fn cells_of(
    alloc: Global,
    actors: &[Arc<Lowered>],
    links: &[Link],
    plan: Plan,
) -> Result<Vec<Cell>, Memory>
    requires burst { 1 ≤ plan.burst }
    requires few { length actors.now ≤ max_instances }
    ensures { IfOk result (λ cells. AreCellsOf (length actors.now) (map arc_value actors.now)
        links.now plan cells.items) }
{
    let mut cells = Vec::new(alloc);
    for i in 0..actors.len() {
        let actor = Arc::clone(actor_at(actors, i))?;
        let cell = cell_of(alloc, actor, links, i as u32, plan)?;
        cells.push(cell)?;
    }
    Ok(cells)
}

/// The cells of these actors in their first states, with queues for the links at their ports, or none if a network of
/// them that is joined so can't be run by this plan.
///
/// # Errors
///
/// `Memory` if memory runs out.
#[tactic(auto, using(crate::proofs::Whole::can_run))]
pub fn ready_cells(
    alloc: Global,
    actors: &[Arc<Lowered>],
    wiring: &Wiring,
    plan: Plan,
) -> Result<Option<Vec<Cell>>, Memory>
    ensures { IfOk result (λ found. IfSome found (λ cells. CanRun (map seen cells.items) wiring.now
        plan)) }
{
    if !can_be_run(actors, wiring, plan) {
        return Ok(None);
    }
    let cells = cells_of(alloc, actors, &wiring.links, plan)?;
    Ok(Some(cells))
}
