//! How many tokens wait before readers.

ghost use Rattle.std.specs.Prelude.{◌≡◌, ◌<◌, ℕ, length, map, slice_get, Some};
ghost use Rattle.net_model.specs.declared.wiring.Link.{Link};
ghost use Rattle.net_model.specs.Ready.{waiting_at};
ghost use Rattle.net_state.specs.Held.{AreCounted, IsReader};

use crate::places::held_at;
use net_model::{End, Firing, Link};

/// Counts for each link how many tokens wait at its reading end.
pub(crate) fn count_waiting<A: Firing>(cells: &[A], links: &[Link], waited: &mut [u32])
    requires as_many { length waited.old ≡ length links.now }
    requires readers { (l : ℕ) (link : Link) → slice_get links.now l ≡ Some link
        → IsReader (map A.cell cells.now) link.to }
    ensures { AreCounted (map A.cell cells.now) links.now waited.new }
{
    for l in 0..links.len() {
        waited[l] = waiting_before(cells, &links[l].to);
    }
}

/// How many tokens wait at a reading end. Before an output of the network none waits.
pub(crate) fn waiting_before<A: Firing>(cells: &[A], to: &End) -> u32
    requires { IsReader (map A.cell cells.now) to.now }
    ensures { result ≡ length (waiting_at (map A.cell cells.now) to.now) }
{
    match *to {
        End::Leaf { inst, port } => held_at(cells, inst, port),
        End::Net { port: _ } => 0,
    }
}
