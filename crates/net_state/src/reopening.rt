//! The rooms of a delivery that was made before the last one.

ghost use Rattle.std.specs.Prelude.{◌≡◌, length, map, vec_items};
ghost use Rattle.net_state.specs.Held.{HasRooms, IsWorking, held_of};
ghost use Rattle.net_state.specs.Reopening.{OpensAgain, noted_or};
ghost use Rattle.net_state.specs.Working.{IsAtRest};

use crate::rooms::fix_rooms;
use net_model::{Firing, Link};

/// Counts as waiting what was noted, and fixes the rooms anew. Nothing waits to leave.
pub(crate) fn open_again<A: Firing>(
    cells: &[A],
    links: &[Link],
    capacities: &[u32],
    waited: &mut [u32],
    rooms: &mut [Vec<u32>],
    noted: &[u32],
)
    requires working { IsWorking (map A.cell cells.now) links.now capacities.now waited.old }
    requires rooms { HasRooms (map A.cell cells.now) links.now capacities.now waited.old
        (map vec_items rooms.old) }
    requires rest { IsAtRest (held_of (map A.cell cells.now) links.now capacities.now waited.old) }
    requires as_many { length noted.now ≡ length links.now }
    ensures states { OpensAgain noted.now
        (held_of (map A.cell cells.now) links.now capacities.now waited.old)
        (held_of (map A.cell cells.now) links.now capacities.now waited.new) }
    ensures working { IsWorking (map A.cell cells.now) links.now capacities.now waited.new }
    ensures rooms { HasRooms (map A.cell cells.now) links.now capacities.now waited.new
        (map vec_items rooms.new) }
{
    for l in 0..links.len() {
        waited[l] = noted_or(waited[l], noted[l], capacities[l]);
    }
    fix_rooms(rooms, links, capacities, waited);
}

/// What was noted, but no less than waits now and no more than the link can hold.
fn noted_or(now: u32, noted: u32, capacity: u32) -> u32
    ensures { result ≡ noted_or now noted capacity }
{
    now.max(noted.min(capacity))
}
