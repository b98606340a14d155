//! The numbers of a run, counted line by line.

ghost use Rattle.std.specs.Prelude.{◌≡◌, ◌≤◌, length, map};
ghost use Rattle.net_model.specs.Limits.{max_links};
ghost use Rattle.network_runner.specs.Counting.{IsToPort};
ghost use Rattle.trace_replay.specs.Counting.{CatchesUp, CountsDelivery, CountsFiring};
ghost use Rattle.trace_replay.specs.Judging.{max_trace_bytes};

use net_model::{Counts, Firing, Link};
use net_state::{Filled, NetState};
use network_runner::{count_arrived, count_sent};

/// Counts a firing.
pub(crate) fn count_firing(numbers: &mut Counts)
    requires few { numbers.old.firings ≤ max_trace_bytes }
    ensures { CountsFiring numbers.old numbers.new }
{
    numbers.firings += 1;
}

/// Counts a delivery, over which this came on each link.
pub(crate) fn count_delivery(came: &[Filled], numbers: &mut Counts)
    requires few { numbers.old.rounds ≤ max_trace_bytes }
    requires arrived { length numbers.old.arrived.items ≡ length came.now }
    requires rests { length numbers.old.rests.items ≡ length came.now }
    ensures { CountsDelivery came.now numbers.old numbers.new }
{
    numbers.rounds += 1;
    count_arrived(came, &mut numbers.arrived, &mut numbers.rests);
}

/// Counts what was sent to outputs and hasn't left.
pub(crate) fn catch_up<A: Firing>(state: &NetState<A>, links: &[Link], numbers: &mut Counts)
    requires links { links.now ≡ state.now.links }
    requires few { length links.now ≤ max_links }
    requires ports { IsToPort links.now (length numbers.old.sent.items) }
    ensures { CatchesUp (map A.cell state.now.cells) links.now numbers.old numbers.new }
{
    count_sent(state, links, &mut numbers.sent);
}
