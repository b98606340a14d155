//! A link grows at a stall.

ghost use Rattle.std.specs.Prelude.{◌≡◌, ◌<◌, ◌*◌, map, min, slice_get, slice_index_or, slice_set, vec_items};
ghost use Rattle.net_state.specs.Held.{HasRooms, IsWorking};
ghost use Rattle.net_state.specs.Working.{CanHold, GrewFrom};

use crate::rooms::fix_rooms;
use net_model::{Firing, Link};

/// The capacity to which a link grows: twice the present one, at most the limit.
fn doubled(capacity: u32, limit: u32) -> u32
    requires { capacity < limit }
    ensures { result ≡ min (2 * capacity) limit }
{
    limit.min(capacity.saturating_mul(2))
}

/// Lets a link grow, and fixes the rooms anew.
pub(crate) fn grow_link<A: Firing>(
    cells: &[A],
    links: &[Link],
    capacities: &mut [u32],
    waited: &[u32],
    rooms: &mut [Vec<u32>],
    l: usize,
    limit: u32,
) -> u32
    requires working { IsWorking (map A.cell cells.now) links.now capacities.old waited.now }
    requires rooms { HasRooms (map A.cell cells.now) links.now capacities.old waited.now
        (map vec_items rooms.old) }
    requires queues { CanHold (map A.cell cells.now) limit (slice_get links.now l) }
    requires below { slice_index_or capacities.old l 0 < limit }
    ensures doubled { result ≡ min (2 * slice_index_or capacities.old l 0) limit }
    ensures capacities { capacities.new ≡ slice_set capacities.old l result }
    ensures states { GrewFrom l result (map A.cell cells.now) links.now waited.now capacities.old
        capacities.new }
    ensures working { IsWorking (map A.cell cells.now) links.now capacities.new waited.now }
    ensures rooms { HasRooms (map A.cell cells.now) links.now capacities.new waited.now
        (map vec_items rooms.new) }
{
    let capacity = doubled(capacities[l], limit);
    capacities[l] = capacity;
    fix_rooms(rooms, links, capacities, waited);
    capacity
}
