//! A trace is replayed over cells that are joined as a flat network says.

ghost use Rattle.std.specs.Prelude.{◌≡◌, ℕ, List, Some, false, map, string_bytes};
ghost use Rattle.net_model.specs.Network.{Network};
ghost use Rattle.cmd_run_network.specs.Files.{AreInputs};
ghost use Rattle.cmd_run_network.specs.Names.{FeedsOpened};
ghost use Rattle.cmd_run_network.specs.Network.{CanRunAll, IsNetworkOf, in_names, plan_of, words_of};
ghost use Rattle.cmd_replay.specs.Steps.{Judges, LeavesFeeds, OpensByName, trial_of};

use crate::outcome::NotReplayed;
use crate::preparing::{Prepared, prepare};
use cmd_ports::open_replay_feeds;
use fnl_flatten::Flat;
use net_model::Firing;
use rvc_io::Feeds;
use rvc_words::Job;
use std::alloc::Global;
use trace_replay::{ReplayFault, Replayed, replay};

/// Replays the trace of a job over these cells, which are joined as `flat` says.
///
/// The port words are matched with the network's inputs. Then the feed of the trace is opened, and those of inputs in the
/// order of links, and the trace is replayed.
///
/// - `judges`: for each network of these cells, and over what feeds tell of the inputs and of the trace: the trace is that
///   of a run, and the numbers count its lines; or it is that of no run.
/// - `leaves`: no other feed was opened, and why each answer came.
///
/// # Errors
///
/// `Refused` for the first port word that names no input, or one that a word before it names; or if the links may not grow
/// as far as the job asks. With this nothing is opened. A fault: the trace is that of no run, a feed couldn't be opened or
/// read, which was counted, or memory ran out.
pub(crate) fn replay_network<A: Firing, F: Feeds>(
    alloc: Global,
    cells: Vec<A>,
    flat: &Flat,
    job: &Job,
    feeds: &mut F,
) -> Result<Replayed, NotReplayed>
    requires can_run { CanRunAll (map A.cell cells.items) flat.now (plan_of job.now) }
    requires feeds_closed { (n : ℕ) → (F.feeds feeds.old).is_open n ≡ false }
    ensures judges { (net : Network A.State) (inputs : List (List ℕ)) (text : List ℕ)
        → IsNetworkOf net (map A.cell cells.items) flat.now
        → AreInputs inputs flat.now.links.items (in_names flat.now) (words_of job.now)
        (F.feeds feeds.old)
        → (F.feeds feeds.old).under (string_bytes job.now.trace) ≡ Some text
        → Judges (trial_of net (map A.cell cells.items) inputs job.now.grow) text inputs result }
    ensures leaves { LeavesFeeds flat.now job.now (F.feeds feeds.old) (F.feeds feeds.new) result }
    ensures by_name { OpensByName flat.now job.now
        (FeedsOpened F.feeds F.past feeds.old feeds.new) result }
{
    let Prepared { wiring, names } = match prepare(alloc, flat, job) {
        Ok(prepared) => prepared,
        Err(stopped) => return Err(stopped),
    };
    if let Err(feed) = open_replay_feeds(
        job.trace.as_str(),
        job.ports.as_slice(),
        flat.links.as_slice(),
        flat.ins.as_slice(),
        feeds,
    ) {
        return Err(NotReplayed::Fault(ReplayFault::ReadFault { feed }));
    }
    match replay(alloc, cells, wiring, job.grow, names.as_slice(), feeds) {
        Ok(replayed) => Ok(replayed),
        Err(fault) => Err(NotReplayed::Fault(fault)),
    }
}
