//! The rooms of the queues of cells.

use crate::actors::idle;
use actor_cell::Cell;
use lowered_actor::Lowered;
use net_cells::make_cells;
use net_model::{End, Firing, Link};
use rvc_base::{InstId, Memory, Scalar};
use std::alloc::Global;
use std::process::Abort;
use std::sync::Arc;

/// In place of the number of a leaf: the network itself.
const NET: u32 = 9;

/// A leaf and its output, a leaf and its input, and how many tokens the link between them can hold.
type Joined = (u32, u32, u32, u32, u32);

/// Two leaves of an input and two outputs, and of two inputs and an output. Of the inputs of the second one has no link,
/// and of the outputs of the first one has no reader.
const PAIR: &[(u32, u32)] = &[(1, 2), (2, 1)];

const LINKS: &[(u32, u32, u32, u32, u32)] = &[
    (NET, 0, 0, 0, 4),
    (0, 0, 1, 0, 8),
    (0, 0, NET, 0, 512),
    (1, 0, NET, 1, 16),
];

/// A network, the limit of growth, a leaf, and the rooms before its inputs and behind its outputs.
type Row<'a> = (
    &'a [(u32, u32)],
    &'a [Joined],
    u32,
    usize,
    &'a [u32],
    &'a [u32],
);

const ROWS: &[(
    &[(u32, u32)],
    &[(u32, u32, u32, u32, u32)],
    u32,
    usize,
    &[u32],
    &[u32],
)] = &[
    (PAIR, LINKS, 0, 0, &[4], &[512, 0]),
    (PAIR, LINKS, 0, 1, &[8, 1], &[16]),
    (PAIR, LINKS, 1024, 0, &[4], &[1024, 0]),
    (PAIR, LINKS, 1024, 1, &[1024, 1], &[16]),
    (PAIR, LINKS, 5, 1, &[8, 1], &[16]),
    (PAIR, &[], 1024, 0, &[1], &[0, 0]),
];

/// The lowered actors of leaves with so many ports.
fn codes(alloc: Global, leaves: &[(u32, u32)]) -> Result<Vec<Arc<Lowered>>, Memory> {
    let mut codes = Vec::new(alloc);
    for &(ins, outs) in leaves {
        codes.push(Arc::new(alloc, idle(alloc, ins, outs)?)?)?;
    }
    Ok(codes)
}

/// A port of a leaf, or of the network.
fn end(inst: u32, port: u32) -> End {
    if inst == NET {
        End::Net { port }
    } else {
        End::Leaf {
            inst: InstId(inst),
            port,
        }
    }
}

/// Links of bytes.
fn links(alloc: Global, joined: &[Joined]) -> Result<Vec<Link>, Memory> {
    let mut links = Vec::new(alloc);
    for &(from, output, to, input, capacity) in joined {
        links.push(Link {
            from: end(from, output),
            to: end(to, input),
            capacity,
            kind: Scalar::Uint(8),
        })?;
    }
    Ok(links)
}

/// Whether there is so much room before each input.
fn has_inboxes(cell: &Cell, rooms: &[u32]) -> bool {
    if cell.actor().ins() as usize != rooms.len() {
        return false;
    }
    for port in 0..cell.actor().ins() {
        if cell.room_before(port) != rooms[port as usize] {
            return false;
        }
    }
    true
}

/// So much room, and one more at one port; a port without reader has the greatest room.
fn told(alloc: Global, rooms: &[u32], more_at: usize) -> Result<Vec<u32>, Memory> {
    let mut told = Vec::new(alloc);
    for p in 0..rooms.len() {
        let room = rooms[p];
        if room == 0 {
            told.push(u32::MAX)?;
        } else if p == more_at && room < u32::MAX {
            told.push(room + 1)?;
        } else {
            told.push(room)?;
        }
    }
    Ok(told)
}

/// Whether there is so much room behind each output, and no more.
fn has_outboxes(alloc: Global, cell: &Cell, rooms: &[u32]) -> Result<bool, Memory> {
    if !cell.are_rooms(&told(alloc, rooms, rooms.len())?) {
        return Ok(false);
    }
    for p in 0..rooms.len() {
        if rooms[p] != 0 && cell.are_rooms(&told(alloc, rooms, p)?) {
            return Ok(false);
        }
    }
    Ok(true)
}

/// Whether the cell of a leaf has queues for so many tokens.
fn has_rooms(alloc: Global, row: &Row<'_>) -> Result<bool, Memory> {
    let &(leaves, joined, grow, at, ins, outs) = row;
    let codes = codes(alloc, leaves)?;
    let links = links(alloc, joined)?;
    let cells = make_cells(alloc, &codes, &links, 1, grow)?;
    if cells.len() != leaves.len() {
        return Ok(false);
    }
    match cells.get(at) {
        Some(cell) => Ok(has_inboxes(cell, ins) && has_outboxes(alloc, cell, outs)?),
        None => Ok(false),
    }
}

fn hold<R: Abort>(rt: &R, alloc: Global, rows: &[Row<'_>]) -> Result<(), Memory> {
    for row in rows {
        let found = has_rooms(alloc, row)?;
        let &(_leaves, _joined, grow, at, _ins, _outs) = row;
        assert!(rt; found, "leaf {at}, grow {grow}");
    }
    Ok(())
}

#[test]
fn queues_are_made_for_their_links(rt: HostRuntime) -> Result<(), Memory> {
    hold(&rt, rt.alloc(), ROWS)
}
