//! How many tokens the queues before and behind a leaf hold.

ghost use Rattle.std.specs.Prelude.{◌≡◌, IfOk};
ghost use Rattle.net_model.specs.Network.{is_leaf_port};
ghost use Rattle.kit_runs.specs.Rooms.{AreRoomsOf, end_at, room_at, wanted, widened};

use net_model::{End, Link};
use rvc_base::Memory;
use std::alloc::Global;

/// Whether an end is this port of this leaf.
fn is_leaf_port(end: End, leaf: u32, port: u32) -> bool
    ensures { result ≡ is_leaf_port leaf port end }
{
    match end {
        End::Leaf { inst, port: own } => leaf == inst.0 && port == own,
        End::Net { port: _ } => false,
    }
}

/// The reading end of a link, or its writing end.
fn end_at(link: &Link, inward: bool) -> End
    ensures { result ≡ end_at inward link.now }
{
    if inward { link.to } else { link.from }
}

/// How many tokens the queues of a link hold: as many as the link, or as it may grow to, and one at least.
fn wanted(link: &Link, grow: u32) -> u32
    ensures { result ≡ wanted grow link.now }
{
    link.capacity.max(grow).max(1)
}

fn widened(here: bool, room: u32, more: u32) -> u32
    ensures { result ≡ widened here room more }
{
    if here { room.max(more) } else { room }
}

/// How many tokens the queue at a port holds: as many as the queues of each link there, and `least` at least.
fn room_at(links: &[Link], inward: bool, leaf: u32, port: u32, grow: u32, least: u32) -> u32
    ensures { result ≡ room_at inward grow leaf port least links.now }
{
    let mut room = least;
    let mut rest = links;
    'links: while let Some((first, others)) = rest.split_first() {
        let here = is_leaf_port(end_at(first, inward), leaf, port);
        room = widened(here, room, wanted(first, grow));
        rest = others;
    }
    room
}

/// The same of each of so many ports.
pub(crate) fn rooms_of(
    alloc: Global,
    links: &[Link],
    inward: bool,
    leaf: u32,
    ports: u32,
    grow: u32,
    least: u32,
) -> Result<Vec<u32>, Memory>
    ensures { IfOk result (λ rooms. AreRoomsOf inward grow leaf least links.now ports rooms.items) }
{
    let mut rooms = Vec::new(alloc);
    for port in 0..ports {
        rooms.push(room_at(links, inward, leaf, port, grow, least))?;
    }
    Ok(rooms)
}
