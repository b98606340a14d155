//! How many tokens the queues at the ports of leaves are made for, found in one pass over the links.

ghost use Rattle.std.specs.Prelude.{◌≡◌, ◌<◌, IfOk, map, replicate, vec_items};
ghost use Rattle.std.specs.Arc.{arc_value};
ghost use Rattle.net_cells.specs.Rooms.{end_at, is_inner, queue_of};
ghost use Rattle.net_cells.specs.Tables.{AreRoomsOf, filled, first_row, ports_of, widened, widened_row};

use lowered_actor::Lowered;
use net_model::{End, Link};
use rvc_base::Memory;
use std::alloc::Global;
use std::sync::Arc;

/// Whether a link joins two leaves.
fn is_inner(link: &Link) -> bool
    ensures { result ≡ is_inner link.now }
{
    match link.from {
        End::Net { port: _ } => false,
        End::Leaf { inst: _, port: _ } => match link.to {
            End::Net { port: _ } => false,
            End::Leaf { inst: _, port: _ } => true,
        },
    }
}

/// For how many tokens the queues of a link are made.
fn queue_of(link: &Link, grow: u32) -> u32
    ensures { result ≡ queue_of grow link.now }
{
    if is_inner(link) {
        link.capacity.max(grow).max(1)
    } else {
        link.capacity.max(1)
    }
}

/// The reading end of a link, or its writing end.
fn end_at(link: &Link, inward: bool) -> End
    ensures { result ≡ end_at inward link.now }
{
    if inward { link.to } else { link.from }
}

/// How many input ports a lowered actor has, or output ports.
fn ports_of(code: &Lowered, inward: bool) -> u32
    ensures { result ≡ ports_of inward code.now }
{
    if inward { code.ins() } else { code.outs() }
}

/// So many equal numbers.
fn numbers(alloc: Global, count: u32, number: u32) -> Result<Vec<u32>, Memory>
    ensures { IfOk result (λ row. row.items ≡ replicate count number) }
{
    Ok(vec![in alloc; number; count as usize]?)
}

/// A row for each lowered actor, with this room for each of its ports.
fn first_rows(
    alloc: Global,
    codes: &[Arc<Lowered>],
    inward: bool,
    least: u32,
) -> Result<Vec<Vec<u32>>, Memory>
    ensures { IfOk result (λ table. map vec_items table.items
        ≡ map (first_row inward least) (map arc_value codes.now)) }
{
    let mut table = Vec::with_capacity(alloc, codes.len())?;
    let mut rest = codes;
    'codes: while let Some((code, others)) = rest.split_first() {
        let row = numbers(alloc, ports_of(code, inward), least)?;
        table.push(row)?;
        rest = others;
    }
    Ok(table)
}

/// Lets a place of a row hold so much at least.
fn widen_row(row: &mut Vec<u32>, port: u32, room: u32)
    ensures { row.new.items ≡ widened_row port room row.old.items }
{
    let p = port as usize;
    if p < row.len() {
        row[p] = row[p].max(room);
    }
}

/// Lets the place of a port hold so much at least. An end that isn't of a leaf has none.
fn widen(table: &mut [Vec<u32>], end: End, room: u32)
    ensures { map vec_items table.new ≡ widened end room (map vec_items table.old) }
{
    if let End::Leaf { inst, port } = end {
        let i = inst.0 as usize;
        if i < table.len() {
            widen_row(&mut table[i], port, room);
        }
    }
}

/// Lets each port have as much room as its links ask for.
fn fill(table: &mut [Vec<u32>], links: &[Link], inward: bool, grow: u32)
    ensures { map vec_items table.new ≡ filled inward grow links.now (map vec_items table.old) }
{
    let mut rest = links;
    'links: while let Some((link, others)) = rest.split_first() {
        widen(table, end_at(link, inward), queue_of(link, grow));
        rest = others;
    }
}

/// A row for each lowered actor, with the room of each of its ports: as much as the links there ask for, and `least` at
/// least.
pub(crate) fn rooms_of(
    alloc: Global,
    codes: &[Arc<Lowered>],
    links: &[Link],
    inward: bool,
    grow: u32,
    least: u32,
) -> Result<Vec<Vec<u32>>, Memory>
    ensures { IfOk result (λ table. AreRoomsOf inward grow least (map arc_value codes.now) links.now
        (map vec_items table.items)) }
{
    let mut table = first_rows(alloc, codes, inward, least)?;
    fill(&mut table, links, inward, grow);
    Ok(table)
}
