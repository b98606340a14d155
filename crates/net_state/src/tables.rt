//! The tables of a network, made once.

ghost use Rattle.std.specs.Prelude.{◌≡◌, ◌<◌, IfOk, length, map, slice_get, vec_items};
ghost use Rattle.net_model.specs.declared.wiring.Link.{Link};
ghost use Rattle.rvc_base.specs.Lawful.{IsLawful};
ghost use Rattle.net_model.specs.Ready.{OnCell};
ghost use Rattle.net_state.specs.Beginning.{AreLawfulCells};
ghost use Rattle.net_state.specs.Held.{HasWidths, HoldFew, capacity_of};

use net_model::{Firing, Link};
use rvc_base::Memory;
use std::alloc::Global;

/// The capacities that links have at the start.
pub(crate) fn first_capacities(alloc: Global, links: &[Link]) -> Result<Vec<u32>, Memory>
    ensures capacities { IfOk result (λ v. v.items ≡ map capacity_of links.now) }
    ensures few { IfOk result (λ v. HoldFew v.items) }
{
    let mut capacities = Vec::with_capacity(alloc, links.len())?;
    for l in 0..links.len() {
        capacities.push(links[l].capacity)?;
    }
    Ok(capacities)
}

/// A table with a row for each cell, and in it a place for each of its output ports.
pub(crate) fn room_table<A: Firing>(alloc: Global, cells: &[A]) -> Result<Vec<Vec<u32>>, Memory>
    ensures widths { IfOk result (λ v. HasWidths (map A.cell cells.now) (map vec_items v.items)) }
    ensures lawful { IfOk result (λ _. AreLawfulCells (map A.cell cells.now)) }
{
    let mut table = Vec::with_capacity(alloc, cells.len())?;
    for i in 0..cells.len() {
        let outs = outs_at(cells, i);
        table.push(zeros(alloc, outs as usize)?)?;
    }
    Ok(table)
}

/// How many output ports a cell has.
fn outs_at<A: Firing>(cells: &[A], i: usize) -> u32
    requires { i < length cells.now }
    ensures count { OnCell (slice_get (map A.cell cells.now) i) (λ cell. result ≡ cell.actor.outs) }
    ensures lawful { OnCell (slice_get (map A.cell cells.now) i) (λ cell. IsLawful cell.actor) }
{
    cells[i].outs()
}

/// So many numbers.
pub(crate) fn zeros(alloc: Global, count: usize) -> Result<Vec<u32>, Memory>
    ensures { IfOk result (λ v. length v.items ≡ count) }
{
    Ok(vec![in alloc; 0; count]?)
}
