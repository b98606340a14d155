//! A delivery of inner and output links.

ghost use Rattle.std.specs.Prelude.{◌≡◌, length, map, vec_items};
ghost use Rattle.net_state.specs.Held.{AreCounted, CanWork, HasRooms, HasWidths, HoldFew, IsWorking, capacity_of};
ghost use Rattle.net_state.specs.Moving.{SameActors, SameMarks};
ghost use Rattle.net_state.specs.Standing.{AreAllOut, Delivers};

use crate::carrying::carry_all;
use crate::places::clear_all;
use crate::rooms::fix_rooms;
use crate::waiting::count_waiting;
use net_model::{Firing, Link};

/// Delivers what was sent on inner and output links, counts what waits then, and fixes the rooms anew.
pub(crate) fn deliver_inside<A: Firing>(
    cells: &mut [A],
    links: &[Link],
    capacities: &[u32],
    waited: &mut [u32],
    rooms: &mut [Vec<u32>],
)
    requires working { IsWorking (map A.cell cells.old) links.now capacities.now waited.old }
    requires rooms { HasRooms (map A.cell cells.old) links.now capacities.now waited.old
        (map vec_items rooms.old) }
    ensures states { Delivers links.now capacities.now (map A.cell cells.old) waited.old
        (map A.cell cells.new) waited.new }
    ensures same_actors { SameActors (map A.cell cells.old) (map A.cell cells.new) }
    ensures same_marks { SameMarks (map A.cell cells.old) (map A.cell cells.new) }
    ensures all_out { AreAllOut (map A.cell cells.new) }
    ensures counted { AreCounted (map A.cell cells.new) links.now waited.new }
    ensures working { IsWorking (map A.cell cells.new) links.now capacities.now waited.new }
    ensures rooms { HasRooms (map A.cell cells.new) links.now capacities.now waited.new
        (map vec_items rooms.new) }
{
    carry_all(cells, links);
    clear_all(cells);
    count_waiting(cells, links, waited);
    fix_rooms(rooms, links, capacities, waited);
}

/// Counts what waits before the first delivery, and fixes the rooms.
pub(crate) fn lay_out<A: Firing>(
    cells: &[A],
    links: &[Link],
    capacities: &[u32],
    waited: &mut [u32],
    rooms: &mut [Vec<u32>],
)
    requires can { CanWork (map A.cell cells.now) links.now }
    requires capacities { capacities.now ≡ map capacity_of links.now }
    requires few { HoldFew capacities.now }
    requires as_many { length waited.old ≡ length links.now }
    requires widths { HasWidths (map A.cell cells.now) (map vec_items rooms.old) }
    ensures counted { AreCounted (map A.cell cells.now) links.now waited.new }
    ensures working { IsWorking (map A.cell cells.now) links.now capacities.now waited.new }
    ensures rooms { HasRooms (map A.cell cells.now) links.now capacities.now waited.new
        (map vec_items rooms.new) }
{
    count_waiting(cells, links, waited);
    fix_rooms(rooms, links, capacities, waited);
}
