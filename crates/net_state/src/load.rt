//! How much work the last round was, and how many threads the next one is worth.
//!
//! A thread is started anew for each round, which takes as long as a thousand short firings. So a round starts threads only
//! if the last one was so much work that they bring more than they cost.

ghost use Rattle.std.specs.Prelude.{◌≡◌, ◌≤◌, ◌<◌, None, IfSome};

use firing_effort::Effort;

/// What it costs to start a thread, in the units of `Effort`: some 35 microseconds, if a short firing takes 30 nanoseconds.
const START: u64 = 1024;

/// What it costs that a cell goes over the board.
const CELL: u64 = 10;

/// With less work than this, some 120 microseconds, no thread is started.
const LEAST: u64 = 4096;

/// The work of a round, as its cells counted it.
#[derive(Clone, Copy, Debug, PartialEq, Eq)]
pub(crate) struct Load {
    /// That of all cells.
    pub total: u64,
    /// That of the cell which had most.
    pub most: u64,
}

/// On how many threads so many workers go through a round with so many marked cells: on one each if no round was made
/// before, on one alone if the last round was little work, and else on as many as pay.
pub(crate) fn threads_for(last: Option<Load>, workers: u32, picks: u32) -> u32
    ensures most { result ≤ workers }
    ensures first { last ≡ None → result ≡ workers }
    ensures little { IfSome last (λ load. load.total < LEAST → result ≤ 1) }
{
    match last {
        Some(load) => threads_of(load, workers, picks),
        None => workers,
    }
}

/// The same by the work of the last round.
fn threads_of(load: Load, workers: u32, picks: u32) -> u32
    ensures most { result ≤ workers }
    ensures little { load.total < LEAST → result ≤ 1 }
{
    if load.total < LEAST {
        return workers.min(1);
    }
    for less in 0..workers {
        let threads = workers - less;
        if threads < 2 || pays(load, picks, threads) {
            return threads;
        }
    }
    workers
}

/// Whether a round of this work is over sooner on so many threads: the last of them does more than it costs, and a quarter
/// of the time is gained at least, since the next round may be less work.
fn pays(load: Load, picks: u32, threads: u32) -> bool
    requires some { 2 ≤ threads }
{
    let threads = u64::from(threads);
    let started = START.saturating_mul(threads - 1);
    let board = CELL.saturating_mul(u64::from(picks));
    let longest = (load.total / threads).max(load.most);
    let time = longest.saturating_add(started).saturating_add(board);
    started.saturating_mul(threads) <= load.total && time <= load.total - load.total / 4
}

/// The work of a round whose bursts these cells made, and half of the last one's if that is more: so one round with little
/// to do between others changes nothing. One worker alone needn't know it.
pub(crate) fn load_after<A: Effort>(last: Option<Load>, workers: u32, cells: &[A]) -> Option<Load> {
    if workers < 2 {
        return last;
    }
    let now = load_of(cells);
    match last {
        Some(load) => Some(Load {
            total: now.total.max(load.total / 2),
            most: now.most.max(load.most / 2),
        }),
        None => Some(now),
    }
}

/// The work that these cells did.
fn load_of<A: Effort>(cells: &[A]) -> Load {
    let mut load = Load { total: 0, most: 0 };
    for cell in cells {
        let effort = cell.effort();
        load.total = load.total.saturating_add(effort);
        load.most = load.most.max(effort);
    }
    load
}
