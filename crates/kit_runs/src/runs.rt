//! Runs of small networks, compared with what they should leave.

ghost use Rattle.std.specs.Prelude.{◌≤◌, IfOk, map};
ghost use Rattle.actor_cell.specs.Core.{seen};
ghost use Rattle.network_runner.specs.Asking.{CanRun};
ghost use Rattle.rvc_io.specs.MemDrains.{channels_of};
ghost use Rattle.rvc_io.specs.MemFeeds.{inputs_of};
ghost use Rattle.kit_runs.specs.Outside.{AreChannelsOpen, AreFeedsOpen};

use crate::networks::Net;
use crate::readiness::ready;
use crate::{Ran, Ready, count_inputs, drains_of, feeds_of, run_network};
use net_model::Wiring;
use round_plan::{AllPolicy, SeedPolicy, TurnPolicy};
use round_runner::{Plan, RunEnd};
use rvc_base::{MAX_BUDGET, Memory};
use rvc_io::{Gate, MemDrains, MemFeeds, OpenGate};
use std::alloc::Global;
use std::thread::Threads;

/// Which policy makes the rounds.
#[derive(Clone, Copy)]
pub enum Rounds {
    All,
    Turn,
    Seed(u64),
}

/// A network and how it is run.
#[derive(Clone, Copy)]
pub struct Case<'a> {
    pub net: Net,
    /// The bytes of each input.
    pub input: &'a [u8],
    /// Which pull fails, counted from 1.
    pub pull: Option<u64>,
    /// Which put fails, counted from 1.
    pub put: Option<u64>,
    /// How many bytes a call moves at most.
    pub step: u32,
    pub workers: u32,
    pub rounds: Rounds,
    pub burst: u32,
    /// Up to which capacity links may grow; 0 if they may not.
    pub grow: u32,
    pub budget: u64,
    /// Whether its outputs have channels.
    pub open: bool,
}

/// What a trace is to be: these bytes, bytes that have this FNV-1a number of 64 bits, or any.
#[derive(Clone, Copy)]
pub enum Trace<'a> {
    Is(&'a [u8]),
    Has(u64),
    Any,
}

/// What a run is to leave.
#[derive(Clone, Copy)]
pub struct Want<'a> {
    pub end: RunEnd,
    pub trace: Trace<'a>,
    /// How many firings it makes, if that is asked.
    pub firings: Option<u64>,
    /// The bytes of its first output.
    pub out: &'a [u8],
    /// The bytes of its second output.
    pub second: &'a [u8],
}

/// The budget of a run that isn't to end by it.
pub const MUCH: u64 = 1_000_000;

/// A run without faults, over calls that move as much as there is.
pub fn plain(net: Net, input: &[u8]) -> Case<'_> {
    Case {
        net,
        input,
        pull: None,
        put: None,
        step: 65_536,
        workers: 1,
        rounds: Rounds::All,
        burst: 64,
        grow: 0,
        budget: MUCH,
        open: true,
    }
}

/// The calls that fail, if the one of this number does and so many openings come first.
fn failing(alloc: Global, call: Option<u64>, openings: u64) -> Result<Vec<u64>, Memory> {
    let mut failing = Vec::new(alloc);
    if let Some(call) = call {
        failing.push(call.saturating_add(openings))?;
    }
    Ok(failing)
}

/// The feeds of a case, or `Memory` if there can't be any.
fn feeds(alloc: Global, wiring: &Wiring, case: Case<'_>) -> Result<MemFeeds, Memory>
    ensures { IfOk result (λ feeds. AreFeedsOpen wiring.now (inputs_of feeds)) }
{
    let openings = match count_inputs(&wiring.links) {
        Some(count) => u64::from(count),
        None => 0,
    };
    let failing = failing(alloc, case.pull, openings)?;
    match feeds_of(alloc, wiring, case.input, &failing, case.step)? {
        Some(feeds) => Ok(feeds),
        None => Err(Memory),
    }
}

/// The channels of a case, or `Memory` if there can't be any.
fn drains(alloc: Global, wiring: &Wiring, case: Case<'_>) -> Result<MemDrains, Memory>
    ensures { IfOk result (λ drains. AreChannelsOpen wiring.now (channels_of drains)) }
{
    let openings = (wiring.open_outs.len() as u64).saturating_add(1);
    let failing = failing(alloc, case.put, openings)?;
    match drains_of(alloc, wiring, &failing, case.step, 4096)? {
        Some(drains) => Ok(drains),
        None => Err(Memory),
    }
}

/// The network of a case, or `Memory` if it can't be run.
fn ready_for(alloc: Global, case: Case<'_>) -> Result<Ready, Memory>
    ensures { IfOk result (λ ready. CanRun (map seen ready.cells.items) ready.wiring ready.plan) }
{
    let plan = Plan {
        workers: case.workers,
        burst: case.burst,
        grow: case.grow,
    };
    ready(alloc, case.net, plan, case.open)
}

fn run_by<R: Threads + Sync, G: Gate>(
    rt: &R,
    alloc: Global,
    ready: Ready,
    case: Case<'_>,
    feeds: &mut MemFeeds,
    drains: &mut MemDrains,
    gate: &G,
) -> Result<Ran, Memory>
    requires can_run { CanRun (map seen ready.cells.items) ready.wiring ready.plan }
    requires budget { case.budget ≤ MAX_BUDGET }
    requires feeds { AreFeedsOpen ready.wiring (inputs_of feeds.old) }
    requires channels { AreChannelsOpen ready.wiring (channels_of drains.old) }
{
    let budget = case.budget;
    match case.rounds {
        Rounds::All => {
            let policy = AllPolicy::new();
            run_network(rt, alloc, ready, policy, budget, feeds, drains, gate)
        }
        Rounds::Turn => {
            let policy = TurnPolicy::new();
            run_network(rt, alloc, ready, policy, budget, feeds, drains, gate)
        }
        Rounds::Seed(seed) => {
            let policy = SeedPolicy::new(seed);
            run_network(rt, alloc, ready, policy, budget, feeds, drains, gate)
        }
    }
}

/// Whether the end and the number of firings are those that are wanted.
fn is_end(ran: Ran, want: Want<'_>) -> bool {
    let are_counted = match want.firings {
        Some(firings) => ran.firings == firings,
        None => true,
    };
    are_counted && ran.end == want.end
}

/// The FNV-1a number of these bytes.
fn number_of(bytes: &[u8]) -> u64 {
    let mut number: u64 = 0xCBF2_9CE4_8422_2325;
    for &byte in bytes {
        number = (number ^ u64::from(byte)).wrapping_mul(0x100_0000_01B3);
    }
    number
}

/// Whether the trace and the outputs are those that are wanted.
fn are_written(drains: &MemDrains, want: Want<'_>) -> bool {
    let is_trace = match want.trace {
        Trace::Is(trace) => drains.held(1) == trace,
        Trace::Has(number) => number_of(drains.held(1)) == number,
        Trace::Any => true,
    };
    is_trace && drains.held(2) == want.out && drains.held(3) == want.second
}

/// Runs a network on open feeds and channels, and says how it ended and whether it left what is wanted.
fn run_open<R: Threads + Sync, G: Gate>(
    rt: &R,
    alloc: Global,
    ready: Ready,
    case: Case<'_>,
    want: Want<'_>,
    feeds: &mut MemFeeds,
    drains: &mut MemDrains,
    gate: &G,
) -> Result<(Ran, bool), Memory>
    requires can_run { CanRun (map seen ready.cells.items) ready.wiring ready.plan }
    requires budget { case.budget ≤ MAX_BUDGET }
    requires feeds { AreFeedsOpen ready.wiring (inputs_of feeds.old) }
    requires channels { AreChannelsOpen ready.wiring (channels_of drains.old) }
{
    let ran = run_by(rt, alloc, ready, case, feeds, drains, gate)?;
    Ok((ran, is_end(ran, want) && are_written(drains, want)))
}

/// The same on feeds and channels of its own.
fn run_ready<R: Threads + Sync, G: Gate>(
    rt: &R,
    alloc: Global,
    ready: Ready,
    case: Case<'_>,
    want: Want<'_>,
    gate: &G,
) -> Result<(Ran, bool), Memory>
    requires can_run { CanRun (map seen ready.cells.items) ready.wiring ready.plan }
    requires budget { case.budget ≤ MAX_BUDGET }
{
    let mut feeds = feeds(alloc, &ready.wiring, case)?;
    let mut drains = drains(alloc, &ready.wiring, case)?;
    run_open(rt, alloc, ready, case, want, &mut feeds, &mut drains, gate)
}

/// How a case ended, and whether it left what is wanted. `gate` is told when a worker starts.
///
/// # Errors
///
/// `Memory` if memory runs out, the network can't be run, or the budget is above the greatest.
pub fn run_past<R: Threads + Sync, G: Gate>(
    rt: &R,
    alloc: Global,
    case: Case<'_>,
    want: Want<'_>,
    gate: &G,
) -> Result<(Ran, bool), Memory> {
    if case.budget > MAX_BUDGET {
        return Err(Memory);
    }
    let ready = ready_for(alloc, case)?;
    run_ready(rt, alloc, ready, case, want, gate)
}

/// How a case ended, and whether it left what is wanted, with a gate that holds nobody.
///
/// # Errors
///
/// Those of [`run_past`].
pub fn run<R: Threads + Sync>(
    rt: &R,
    alloc: Global,
    case: Case<'_>,
    want: Want<'_>,
) -> Result<(Ran, bool), Memory> {
    run_past(rt, alloc, case, want, &OpenGate)
}
