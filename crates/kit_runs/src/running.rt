//! A run of a network from its start to its end.

ghost use Rattle.std.specs.Prelude.{◌≡◌, ◌≤◌, ℕ, IfOk, map};
ghost use Rattle.rvc_io.specs.Channels.{WriteFails};
ghost use Rattle.rvc_io.specs.Feeds.{ReadFails};
ghost use Rattle.actor_cell.specs.Core.{seen};
ghost use Rattle.network_runner.specs.Asking.{CanRun};
ghost use Rattle.kit_runs.specs.Outside.{AreChannelsOpen, AreFeedsOpen};
ghost use Rattle.kit_runs.specs.Runs.{RanFrom, first_or_0};

use actor_cell::Cell;
use net_model::{Counts, Meaning, Wiring};
use network_runner::{Runner, runs_are_paced};
use round_plan::Policy;
use round_runner::{Plan, RunEnd};
use rvc_base::{MAX_BUDGET, Memory};
use rvc_io::{Drains, Feeds, Gate};
use std::alloc::Global;
use std::thread::Threads;

/// A network that can be run by its plan.
#[derive(Drop)]
pub struct Ready {
    pub cells: Vec<Cell>,
    pub wiring: Wiring,
    pub plan: Plan,
}

/// How a run ended, and its numbers: of the first link what arrived and how many bytes were dropped at the end of its
/// feed, and of the first output what was sent; 0 if there is none.
#[derive(Clone, Copy, Debug)]
pub struct Ran {
    pub end: RunEnd,
    pub firings: u64,
    pub rounds: u64,
    pub arrived: u64,
    pub rest: u8,
    pub sent: u64,
}

/// The states of the actors of cells, as laws of networks speak of them.
struct CellStates;

impl Meaning for CellStates {
    ghost use Rattle.lowered_actor.specs.Meaning.{ActorState};

    ghost State = { ActorState };
}

/// The first of these numbers, and 0 if there is none.
fn first(numbers: &[u64]) -> u64
    ensures { result ≡ first_or_0 numbers.now }
{
    match numbers.split_first() {
        Some((first, _others)) => *first,
        None => 0,
    }
}

/// The numbers of a run that ended so.
fn numbers_of(end: RunEnd, counts: &Counts) -> Ran
    ensures end { result.end ≡ end }
    ensures firings { result.firings ≡ counts.now.firings }
    ensures rounds { result.rounds ≡ counts.now.rounds }
    ensures arrived { result.arrived ≡ first_or_0 counts.now.arrived.items }
    ensures sent { result.sent ≡ first_or_0 counts.now.sent.items }
{
    let rest = match counts.rests.first() {
        Some(rest) => *rest,
        None => 0,
    };
    Ran {
        end,
        firings: counts.firings,
        rounds: counts.rounds,
        arrived: first(&counts.arrived),
        rest,
        sent: first(&counts.sent),
    }
}

/// Runs a network from its start to its end, with at most `budget` firings, over feeds and channels that are open.
///
/// What it writes are paced lines, the bytes of what they send, and their numbers (`leaves`).
///
/// # Errors
///
/// `Memory` if memory runs out. A run ends in `ReadFault` or `WriteFault` only if a feed couldn't be read or a channel
/// couldn't be written: the failure was counted (`read_faults`, `write_faults`).
#[tactic(auto, using(crate::proofs::Started::feeds_fit, crate::proofs::Started::channels_fit, crate::proofs::Started::none_fired))]
pub fn run_network<R: Threads + Sync, P: Policy, F: Feeds, D: Drains, G: Gate>(
    rt: &R,
    alloc: Global,
    ready: Ready,
    policy: P,
    budget: u64,
    feeds: &mut F,
    drains: &mut D,
    gate: &G,
) -> Result<Ran, Memory>
    requires can_run { CanRun (map seen ready.cells.items) ready.wiring ready.plan }
    requires not_asked { P.rounds policy ≡ 0 }
    requires budget { budget ≤ MAX_BUDGET }
    requires feeds { AreFeedsOpen ready.wiring (F.feeds feeds.old) }
    requires channels { AreChannelsOpen ready.wiring (D.channels drains.old) }
    ensures leaves { IfOk result (RanFrom (map seen ready.cells.items) ready.wiring ready.plan
        (P.kind policy) budget (F.feeds feeds.old) (F.feeds feeds.new) (D.channels drains.old)
        (D.channels drains.new)) }
    ensures within { IfOk result (λ ran. ran.firings ≤ budget) }
    ensures read_faults { IfOk result (λ ran. (feed : ℕ) → ran.end ≡ RunEnd.ReadFault feed
        → ReadFails F.feeds feeds.old feeds.new) }
    ensures write_faults { IfOk result (λ ran. (channel : ℕ) → ran.end ≡ RunEnd.WriteFault channel
        → WriteFails D.channels drains.old drains.new) }
{
    let Ready {
        cells,
        wiring,
        plan,
    } = ready;
    let mut runner = Runner::new(alloc, cells, wiring, plan, policy)?;
    let end = runner.run(rt, budget, feeds, drains, gate);
    runs_are_paced::<CellStates>();
    Ok(numbers_of(end, runner.counts()))
}
