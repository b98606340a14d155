//! One run of a network, from port words to its end.

ghost use Rattle.std.specs.Prelude.{◌≡◌, ◌≢◌, ◌≤◌, ℕ, List, false, IfOk, length, map, string_bytes};
ghost use Rattle.net_model.specs.Network.{Network};
ghost use Rattle.net_model.specs.Ready.{given_state};
ghost use Rattle.cmd_run_network.specs.Answering.{AreAllOpen, EndIsCaused, IfStarted, IfUnstarted, IsPermitted, IsRefused, IsUnread, IsUnwritten, LeavesJob, OnRefused, OnUnread, OnUnwritten};
ghost use Rattle.cmd_run_network.specs.Arriving.{ArriveInEach};
ghost use Rattle.cmd_run_network.specs.Files.{AreInputs, Keeps, OpensOnly, WritesOnly};
ghost use Rattle.cmd_run_network.specs.Leaving.{setting_of};
ghost use Rattle.cmd_run_network.specs.Names.{ChannelsOpened, FeedsOpened, OpensByName};
ghost use Rattle.cmd_run_network.specs.Network.{CanRunAll, IsNetworkOf, head_of, in_names, out_names, plan_of, words_of};

use crate::numbers::take_over;
use crate::opening::start;
use crate::outcome::{JobFault, Outcome};
use crate::preparing::{Prepared, prepare};
use crate::states::StatesOf;
use firing_effort::Effort;
use fnl_flatten::Flat;
use net_model::{Firing, paced_lines_keep_the_budget};
use network_runner::runs_are_paced;
use round_plan::{AllPolicy, Policy, SeedPolicy, TurnPolicy};
use rvc_base::{MAX_BUDGET, RoundKind};
use rvc_io::{Drains, Feeds, Gate};
use rvc_words::Job;
use std::alloc::Global;
use std::thread::Threads;

/// The same by a policy of the job's kind.
fn run_by<R: Threads + Sync, A: Firing + Effort + Send, P: Policy, F: Feeds, D: Drains, G: Gate>(
    rt: &R,
    alloc: Global,
    cells: Vec<A>,
    flat: &Flat,
    job: &Job,
    policy: P,
    feeds: &mut F,
    drains: &mut D,
    gate: &G,
) -> Result<Outcome, JobFault>
    requires can_run { CanRunAll (map A.cell cells.items) flat.now (plan_of job.now) }
    requires budget { job.now.budget ≤ MAX_BUDGET }
    requires feeds_closed { (n : ℕ) → 1 ≤ n → n ≤ length flat.now.links.items
        → (F.feeds feeds.old).is_open n ≡ false }
    requires channels_closed { (n : ℕ) → n ≢ 0 → (D.channels drains.old).is_open n ≡ false }
    requires kind { P.kind policy ≡ job.now.round }
    requires not_asked { P.rounds policy ≡ 0 }

    // What the job leaves.
    ensures leaves { (net : Network A.State) (inputs : List (List ℕ))
        → IsNetworkOf net (map A.cell cells.items) flat.now
        → AreInputs inputs flat.now.links.items (in_names flat.now) (words_of job.now)
        (F.feeds feeds.old)
        → LeavesJob (setting_of net inputs (given_state net (map A.cell cells.items) inputs) job.now)
        result (F.feeds feeds.new) (D.channels drains.new) }
    ensures within { IfOk result (λ outcome. outcome.counts.firings ≤ job.now.budget) }
    ensures arrive { IfOk result (λ outcome. ArriveInEach (G.arrived gate.now) job.now
        (length cells.items) outcome.counts) }

    // When each answer comes, and what it says.
    ensures permitted { IfStarted result (IsPermitted flat.now job.now) }
    ensures refused { OnRefused result (IsRefused flat.now job.now) }
    ensures unstarted { IfUnstarted result ((feeds.new ≡ feeds.old) × (drains.new ≡ drains.old)) }
    ensures unread { OnUnread result (λ feed. IsUnread flat.now.links.items (in_names flat.now)
        (words_of job.now) (F.feeds feeds.old) (F.feeds feeds.new) feed
        × (drains.new ≡ drains.old)) }
    ensures unwritten { OnUnwritten result (IsUnwritten flat.now.links.items (in_names flat.now)
        (out_names flat.now) (words_of job.now) (string_bytes job.now.trace)
        (head_of flat.now (length cells.items) job.now.grow) (F.feeds feeds.old)
        (F.feeds feeds.new) (D.channels drains.old) (D.channels drains.new)) }
    ensures opened { IfOk result (λ _. AreAllOpen flat.now.links.items (in_names flat.now)
        (out_names flat.now) (words_of job.now) (string_bytes job.now.trace) (F.feeds feeds.new)
        (D.channels drains.new)) }
    ensures faults { IfOk result (λ outcome. EndIsCaused flat.now.links.items (in_names flat.now)
        (out_names flat.now) (words_of job.now) (F.feeds feeds.old) (F.feeds feeds.new)
        (D.channels drains.old) (D.channels drains.new) outcome.end) }

    // What was opened, in which order, and under which names.
    ensures by_name { OpensByName flat.now.links.items (in_names flat.now) (out_names flat.now)
        (words_of job.now) (string_bytes job.now.trace)
        (FeedsOpened F.feeds F.past feeds.old feeds.new)
        (ChannelsOpened D.channels D.past drains.old drains.new) result }

    // What stays.
    ensures other_feeds { OpensOnly flat.now.links.items (in_names flat.now) (words_of job.now)
        (F.feeds feeds.old) (F.feeds feeds.new) }
    ensures other_channels { WritesOnly (out_names flat.now) (words_of job.now)
        (D.channels drains.old) (D.channels drains.new) }
{
    let prepared = match prepare(alloc, cells, flat, job, policy) {
        Ok(prepared) => prepared,
        Err(fault) => return Err(fault),
    };
    let Prepared {
        mut runner,
        head,
        mut counts,
    } = prepared;
    if let Err(fault) = start(flat, job, head.as_slice(), feeds, drains) {
        return Err(fault);
    }
    let end = runner.run(rt, job.budget, feeds, drains, gate);
    take_over(runner.counts(), &mut counts);
    runs_are_paced::<StatesOf<A>>();
    paced_lines_keep_the_budget::<StatesOf<A>>();
    Ok(Outcome { end, counts })
}

/// Runs a network, whose cells are joined as `flat` says, as a job asks.
///
/// The port words are matched with the network's ports, it is tested how far the links may grow, and all memory is taken.
/// Then the feeds are opened, in the order of links, and the channels: the trace's, and those of outputs in their order.
/// What stands in the trace before its first event is written, and the rounds go until one ends the run. `rt` is for the
/// threads of more workers than one; `gate` is told when a worker starts.
///
/// - `leaves`: for each network of these cells, and over the bytes that feeds tell under the files of its inputs (an input
///   that no word names has none): if the run came to its end, the trace's channel holds the text of paced lines, the last
///   of which is that end, the channel of each output that has a file holds the bytes of what was sent to it, the numbers
///   count these lines, and no channel of another output was opened. If a feed couldn't be read the lines are begun, and they
///   are those of all rounds that were made: the delivery behind them is the one that has to pull from that feed. If a channel
///   couldn't be opened or written, each that was opened has a prefix of what begun or paced lines give.
/// - `permitted`: if anything was opened, each port word names a port of its own, and the links don't grow too far.
/// - `within`: no more firings were made than the job permits.
/// - `arrive`: in each round that was made, each worker that worked has arrived at the gate.
/// - `opened`: after a run all feeds of inputs that have a file are open, and so are the trace's channel and those of outputs
///   that have one.
/// - `by_name`: each of these was opened under the name of its file, and no other was opened, neither of feeds nor of channels;
///   the feeds in the order of links, and the channels with the trace's first. If one of them couldn't be opened, those before
///   it were.
/// - `faults`: a run ends by a feed or a channel only if that was counted, and only by one that was opened.
/// - `other_feeds`, `other_channels` and `report`: no other feed was opened, and no other channel was opened or written; so
///   channel 0 is as it was.
///
/// # Errors
///
/// - `Refused` for the first port word that names no port, or one that a word before it names; and for links that may grow
///   to hold too much (`refused`).
/// - `Memory` if memory runs out; more than 2,147,483,647 inputs or outputs count as that. With these two nothing is opened
///   or written (`unstarted`).
/// - `ReadFault` with the number of the first feed that couldn't be opened: the failure was counted, the feeds before it are
///   open, and no channel was opened (`unread`).
/// - `WriteFault` with the number of the first channel that couldn't be opened, or that of the trace's, if what stands
///   before the first event couldn't be written, of which it got a prefix: the failure was counted, and all feeds and the
///   channels before it are open (`unwritten`).
#[tactic(auto, using(crate::proofs::Kept::report_kept))]
pub fn run_network<R: Threads + Sync, A: Firing + Effort + Send, F: Feeds, D: Drains, G: Gate>(
    rt: &R,
    alloc: Global,
    cells: Vec<A>,
    flat: &Flat,
    job: &Job,
    feeds: &mut F,
    drains: &mut D,
    gate: &G,
) -> Result<Outcome, JobFault>
    requires can_run { CanRunAll (map A.cell cells.items) flat.now (plan_of job.now) }
    requires budget { job.now.budget ≤ MAX_BUDGET }
    requires feeds_closed { (n : ℕ) → 1 ≤ n → n ≤ length flat.now.links.items
        → (F.feeds feeds.old).is_open n ≡ false }
    requires channels_closed { (n : ℕ) → n ≢ 0 → (D.channels drains.old).is_open n ≡ false }

    // What the job leaves.
    ensures leaves { (net : Network A.State) (inputs : List (List ℕ))
        → IsNetworkOf net (map A.cell cells.items) flat.now
        → AreInputs inputs flat.now.links.items (in_names flat.now) (words_of job.now)
        (F.feeds feeds.old)
        → LeavesJob (setting_of net inputs (given_state net (map A.cell cells.items) inputs) job.now)
        result (F.feeds feeds.new) (D.channels drains.new) }
    ensures within { IfOk result (λ outcome. outcome.counts.firings ≤ job.now.budget) }
    ensures arrive { IfOk result (λ outcome. ArriveInEach (G.arrived gate.now) job.now
        (length cells.items) outcome.counts) }

    // When each answer comes, and what it says.
    ensures permitted { IfStarted result (IsPermitted flat.now job.now) }
    ensures refused { OnRefused result (IsRefused flat.now job.now) }
    ensures unstarted { IfUnstarted result ((feeds.new ≡ feeds.old) × (drains.new ≡ drains.old)) }
    ensures unread { OnUnread result (λ feed. IsUnread flat.now.links.items (in_names flat.now)
        (words_of job.now) (F.feeds feeds.old) (F.feeds feeds.new) feed
        × (drains.new ≡ drains.old)) }
    ensures unwritten { OnUnwritten result (IsUnwritten flat.now.links.items (in_names flat.now)
        (out_names flat.now) (words_of job.now) (string_bytes job.now.trace)
        (head_of flat.now (length cells.items) job.now.grow) (F.feeds feeds.old)
        (F.feeds feeds.new) (D.channels drains.old) (D.channels drains.new)) }
    ensures opened { IfOk result (λ _. AreAllOpen flat.now.links.items (in_names flat.now)
        (out_names flat.now) (words_of job.now) (string_bytes job.now.trace) (F.feeds feeds.new)
        (D.channels drains.new)) }
    ensures faults { IfOk result (λ outcome. EndIsCaused flat.now.links.items (in_names flat.now)
        (out_names flat.now) (words_of job.now) (F.feeds feeds.old) (F.feeds feeds.new)
        (D.channels drains.old) (D.channels drains.new) outcome.end) }

    // What was opened, in which order, and under which names.
    ensures by_name { OpensByName flat.now.links.items (in_names flat.now) (out_names flat.now)
        (words_of job.now) (string_bytes job.now.trace)
        (FeedsOpened F.feeds F.past feeds.old feeds.new)
        (ChannelsOpened D.channels D.past drains.old drains.new) result }

    // What stays.
    ensures other_feeds { OpensOnly flat.now.links.items (in_names flat.now) (words_of job.now)
        (F.feeds feeds.old) (F.feeds feeds.new) }
    ensures other_channels { WritesOnly (out_names flat.now) (words_of job.now)
        (D.channels drains.old) (D.channels drains.new) }
    ensures report { Keeps 0 (D.channels drains.old) (D.channels drains.new) }
{
    match job.round {
        RoundKind::All => run_by(
            rt,
            alloc,
            cells,
            flat,
            job,
            AllPolicy::new(),
            feeds,
            drains,
            gate,
        ),
        RoundKind::Turn => run_by(
            rt,
            alloc,
            cells,
            flat,
            job,
            TurnPolicy::new(),
            feeds,
            drains,
            gate,
        ),
        RoundKind::Seed(seed) => run_by(
            rt,
            alloc,
            cells,
            flat,
            job,
            SeedPolicy::new(seed),
            feeds,
            drains,
            gate,
        ),
    }
}
