//! A trace that is replayed over cells that can be run.

ghost use Rattle.std.specs.Prelude.{map};
ghost use Rattle.actor_cell.specs.Core.{seen};
ghost use Rattle.network_runner.specs.Asking.{CanRun};
ghost use Rattle.test_replay.specs.Open.{AreOpenFor};

use kit_runs::Ready;
use rvc_io::Feeds;
use std::alloc::Global;
use trace_replay::{ReplayFault, Replayed, replay};

/// What comes of a trace that is replayed over a network, or none if there isn't one name for each cell. The network can
/// be run by its plan, and its feeds are open.
pub fn replay_network<F: Feeds>(
    alloc: Global,
    ready: Ready,
    names: &[String],
    feeds: &mut F,
) -> Option<Result<Replayed, ReplayFault>>
    requires can_run { CanRun (map seen ready.cells.items) ready.wiring ready.plan }
    requires feeds { AreOpenFor ready.wiring (F.feeds feeds.old) }
{
    let Ready {
        cells,
        wiring,
        plan,
    } = ready;
    if names.len() != cells.len() {
        return None;
    }
    Some(replay(alloc, cells, wiring, plan.grow, names, feeds))
}
