//! The table of rooms: how many tokens each output port may hold in its outbox.

ghost use Rattle.std.specs.Prelude.{◌≡◌, ◌≤◌, ◌<◌, ◌-◌, ℕ, min, length, map, replicate, slice_index_or, slice_set, vec_items, vec_len};
ghost use Rattle.net_model.specs.declared.wiring.Link.{Link};
ghost use Rattle.net_model.specs.Cell.{unread_room};
ghost use Rattle.net_state.specs.Held.{HasPlace, HasShapeOf, HavePlaces, IsRoomTable, IsWide, Narrows};

use net_model::{End, Link};

/// Fixes the room of each output port: the least of its links' capacities, each less what waits at its reader.
pub(crate) fn fix_rooms(table: &mut [Vec<u32>], links: &[Link], capacities: &[u32], waited: &[u32])
    requires each_holds { length capacities.now ≡ length links.now }
    requires each_waited { length waited.now ≡ length links.now }
    requires fits { (l : ℕ) → l < length links.now
        → slice_index_or waited.now l 0 ≤ slice_index_or capacities.now l 0 }
    requires places { HavePlaces (map vec_items table.old) links.now }
    ensures shape { HasShapeOf (map vec_items table.old) (map vec_items table.new) }
    ensures rooms { IsRoomTable links.now capacities.now waited.now (map vec_items table.new) }
{
    widen_all(table);
    let count = links.len();
    for k in 0..count {
        let l = count - 1 - k;
        narrow(table, &links[l].from, capacities[l] - waited[l]);
    }
}

/// Gives each port the room of one that no link leaves.
fn widen_all(table: &mut [Vec<u32>])
    ensures shape { HasShapeOf (map vec_items table.old) (map vec_items table.new) }
    ensures wide { IsWide (length table.old) (map vec_items table.new) }
{
    for i in 0..table.len() {
        widen(&mut table[i]);
    }
}

/// Gives each port of a row the room of one that no link leaves.
fn widen(row: &mut Vec<u32>)
    ensures { row.new.items ≡ replicate (length row.old.items) unread_room }
{
    row.fill(u32::MAX);
}

/// Lets a writing port have at most this room.
fn narrow(table: &mut [Vec<u32>], from: &End, room: u32)
    requires { HasPlace (map vec_items table.old) from.now }
    ensures { Narrows from.now room (map vec_items table.old) (map vec_items table.new) }
{
    if let End::Leaf { inst, port } = *from {
        narrow_row(&mut table[inst.0 as usize], port as usize, room);
    }
}

/// Lets a port of a row have at most this room.
fn narrow_row(row: &mut Vec<u32>, port: usize, room: u32)
    requires { port < vec_len row.old }
    ensures { row.new.items ≡ slice_set row.old.items port
        (min room (slice_index_or row.old.items port 0)) }
{
    row[port] = room.min(row[port]);
}
