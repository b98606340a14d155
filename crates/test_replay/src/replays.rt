//! Traces that are replayed over small networks.

ghost use Rattle.std.specs.Prelude.{IfOk, map};
ghost use Rattle.actor_cell.specs.Core.{seen};
ghost use Rattle.network_runner.specs.Asking.{CanRun};
ghost use Rattle.rvc_io.specs.MemFeeds.{inputs_of};
ghost use Rattle.test_replay.specs.Open.{AreOpenFor};

use crate::paths::names;
use crate::{replay_feeds, replay_network};
use kit_runs::{Net, Ready, ready};
use net_model::Wiring;
use round_runner::Plan;
use rvc_base::Memory;
use rvc_io::MemFeeds;
use std::alloc::Global;
use trace_replay::{ReplayFault, Replayed, Why};
use trace_text::Line;

/// What a trace should come to.
#[derive(Clone, Copy, Debug, PartialEq, Eq)]
pub(crate) enum Answer {
    /// A run with this end line, so many firings and so many deliveries.
    Ends(Line, u64, u64),
    /// No run, first by this line.
    Fails(u64, Why),
    /// A feed that can't be read.
    Unread(u32),
    /// Nothing, since memory ran out or the network can't be run.
    Nothing,
}

/// A trace, the network and the bytes of its input over which it is replayed, up to which capacity links grow, and the
/// calls of feeds that fail, of which the first three are the openings.
#[derive(Clone, Copy)]
pub(crate) struct Case<'a> {
    pub(crate) net: Net,
    pub(crate) input: &'a [u8],
    pub(crate) grow: u32,
    pub(crate) trace: &'a [u8],
    pub(crate) failing: &'a [u64],
}

/// The feeds of a case, or `Memory` if there can't be any.
fn feeds(alloc: Global, wiring: &Wiring, case: Case<'_>) -> Result<MemFeeds, Memory>
    ensures { IfOk result (λ feeds. AreOpenFor wiring.now (inputs_of feeds)) }
{
    match replay_feeds(alloc, wiring, case.trace, case.input, case.failing)? {
        Some(feeds) => Ok(feeds),
        None => Err(Memory),
    }
}

/// The network of a case, or `Memory` if it can't be run.
fn ready_for(alloc: Global, net: Net, grow: u32) -> Result<Ready, Memory>
    ensures { IfOk result (λ ready. CanRun (map seen ready.cells.items) ready.wiring ready.plan) }
{
    let plan = Plan {
        workers: 1,
        burst: 1,
        grow,
    };
    ready(alloc, net, plan, true)
}

/// What a trace was replayed as.
pub(crate) type Told = Result<Replayed, ReplayFault>;

fn answer_of(told: Told) -> Answer {
    match told {
        Ok(run) => Answer::Ends(run.end, run.counts.firings, run.counts.rounds),
        Err(ReplayFault::NotRun { line, why }) => Answer::Fails(line, why),
        Err(ReplayFault::ReadFault { feed }) => Answer::Unread(feed),
        Err(ReplayFault::Memory) => Answer::Nothing,
    }
}

/// Replays the trace of a case over its network.
fn replay_ready(alloc: Global, ready: Ready, case: Case<'_>) -> Result<Told, Memory>
    requires can_run { CanRun (map seen ready.cells.items) ready.wiring ready.plan }
{
    let names = names(alloc, case.net)?;
    let mut feeds = feeds(alloc, &ready.wiring, case)?;
    match replay_network(alloc, ready, &names, &mut feeds) {
        Some(told) => Ok(told),
        None => Err(Memory),
    }
}

/// What is told of the trace of a case.
pub(crate) fn told(alloc: Global, case: Case<'_>) -> Result<Told, Memory> {
    let ready = ready_for(alloc, case.net, case.grow)?;
    replay_ready(alloc, ready, case)
}

/// What a case comes to.
pub(crate) fn replay_case(alloc: Global, case: Case<'_>) -> Answer {
    match told(alloc, case) {
        Ok(told) => answer_of(told),
        Err(_) => Answer::Nothing,
    }
}
