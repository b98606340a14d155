//! Runs whose instances several workers share.

use kit_runs::{Case, MUCH, Net, Ran, Trace, Want, plain, run, run_past};
use round_runner::RunEnd;
use rvc_base::{ActId, InstId, Memory, Trap};
use rvc_io::Gate;
use std::alloc::Global;
use std::sync::atomic::{AtomicU64, Ordering};
use std::thread;
use std::thread::Threads;

/// Counts how often workers start, and adds up their numbers.
#[derive(Drop)]
struct Starts {
    count: AtomicU64,
    numbers: AtomicU64,
}

impl Gate for Starts {
    fn arrive(&self, _round: u64, worker: u32) {
        self.count.fetch_add(1, Ordering::SeqCst);
        self.numbers.fetch_add(u64::from(worker), Ordering::SeqCst);
    }
}

/// How often an instance may fire in a round, and the budget; and, as `tools/round_traces.py` finds them for five actors
/// in a row, how many rounds there are, the FNV-1a number of the trace, how many firings are made, what goes out, the end,
/// in how many rounds the workers share the instances, and in how many one of them works them all.
type Row<'a> = (u32, u64, u64, u64, u64, &'a [u8], RunEnd, u64, u64);

const INPUT: &[u8] = &[0, 1, 2, 250, 251, 252, 255];

const OUT: &[u8] = &[5, 6, 7, 255, 0, 1, 4];

const ROWS: &[Row] = &[
    (
        2,
        MUCH,
        9,
        0xD8A4_7098_4A9B_1F3A,
        35,
        OUT,
        RunEnd::Quiet,
        9,
        0,
    ),
    (
        64,
        MUCH,
        6,
        0x3A5E_4B23_99C8_983A,
        35,
        OUT,
        RunEnd::Quiet,
        6,
        0,
    ),
    (
        2,
        35,
        10,
        0x1F94_32E6_F54E_4AF6,
        35,
        OUT,
        RunEnd::Quiet,
        7,
        2,
    ),
    (
        2,
        23,
        6,
        0x14DB_9E08_1CDE_1367,
        23,
        &[],
        RunEnd::Budget,
        4,
        1,
    ),
    (
        1,
        13,
        6,
        0xFE6D_8690_2032_01BC,
        13,
        &[],
        RunEnd::Budget,
        4,
        1,
    ),
    (3, 7, 4, 0x9E61_8824_987A_B5B4, 7, &[], RunEnd::Budget, 2, 1),
    (2, 5, 4, 0x6E14_8DD2_6F50_21A4, 5, &[], RunEnd::Budget, 1, 2),
    (
        64,
        4,
        2,
        0x43EF_C18D_3595_531D,
        4,
        &[],
        RunEnd::Budget,
        0,
        1,
    ),
];

/// There are five instances: so some of these are fewer, some as many, and some more.
const WORKERS: &[u32] = &[1, 2, 3, 4, 5, 7, 64];

/// How many workers share five instances, and their numbers added up.
fn crew_of(workers: u32) -> (u64, u64) {
    let count = u64::from(workers.min(5));
    (count, count.saturating_mul(count.saturating_sub(1)) / 2)
}

/// How a run of this row ended, and whether it left what is wanted and the gate saw each worker.
fn row_holds<R: Threads + Sync>(
    rt: &R,
    alloc: Global,
    row: Row<'_>,
    workers: u32,
) -> Result<(Ran, bool), Memory> {
    let (burst, budget, rounds, trace, firings, out, end, shared, alone) = row;
    let want = Want {
        end,
        trace: Trace::Has(trace),
        firings: Some(firings),
        out,
        second: &[],
    };
    let case = Case {
        workers,
        burst,
        budget,
        ..plain(Net::Five, INPUT)
    };
    let starts = Starts {
        count: AtomicU64::new(0),
        numbers: AtomicU64::new(0),
    };
    let (ran, as_wanted) = run_past(rt, alloc, case, want, &starts)?;
    let (count, numbers) = crew_of(workers);
    let are_told = starts.count.load(Ordering::SeqCst)
        == count.saturating_mul(shared).saturating_add(alone)
        && starts.numbers.load(Ordering::SeqCst) == numbers.saturating_mul(shared);
    Ok((ran, as_wanted && are_told && ran.rounds == rounds))
}

#[test]
fn a_trace_is_the_same_for_each_number_of_workers(rt: HostRuntime) -> Result<(), Memory> {
    for &row in ROWS {
        for &workers in WORKERS {
            let trace = row.3;
            let (ran, holds) = row_holds(&rt, rt.alloc(), row, workers)?;
            assert!(rt; holds, "{trace} {workers} {ran:?}");
        }
    }
    Ok(())
}

/// A network of two actors, the instance that traps in it, its trace, and what goes to its outputs.
type TrapRow<'a> = (Net, u32, &'a str, &'a [u8], &'a [u8]);

/// The third token is divided by the fourth.
const PAIRS: &[u8] = &[10, 2, 7, 0, 9];

const TRAPS: &[TrapRow] = &[
    (
        Net::LowTraps,
        0,
        "r\nf 0 0\nf 1 0\nf 1 0\nf 1 0\nf 1 0\nf 1 0\nt 0 0 DivideByZero\n",
        &[5],
        PAIRS,
    ),
    (
        Net::HighTraps,
        1,
        "r\nf 0 0\nf 0 0\nf 0 0\nf 0 0\nf 0 0\nf 1 0\nt 1 0 DivideByZero\n",
        PAIRS,
        &[5],
    ),
    (
        Net::BothTrap,
        0,
        "r\nf 0 0\nf 1 0\nt 0 0 DivideByZero\n",
        &[5],
        &[5],
    ),
];

/// How a run of this row ended, and whether it left what is wanted.
fn traps_so<R: Threads + Sync>(
    rt: &R,
    alloc: Global,
    row: TrapRow<'_>,
    workers: u32,
) -> Result<(Ran, bool), Memory> {
    let (net, inst, trace, out, second) = row;
    let want = Want {
        end: RunEnd::Trapped {
            inst: InstId(inst),
            action: ActId(0),
            trap: Trap::DivideByZero,
        },
        trace: Trace::Is(trace.as_bytes()),
        firings: None,
        out,
        second,
    };
    let case = Case {
        workers,
        ..plain(net, PAIRS)
    };
    run(rt, alloc, case, want)
}

#[test]
fn the_lowest_trap_ends_a_round_that_is_shared(rt: HostRuntime) -> Result<(), Memory> {
    for &row in TRAPS {
        for &workers in &[1u32, 2, 64] {
            let trace = row.2;
            let (ran, holds) = traps_so(&rt, rt.alloc(), row, workers)?;
            assert!(rt; holds, "{trace} {workers} {ran:?}");
        }
    }
    Ok(())
}

/// Holds worker 0 of round 1 until worker 1 of round 1 comes, but not forever.
#[derive(Drop)]
struct Meeting {
    came: AtomicU64,
    met: AtomicU64,
}

/// How often worker 0 looks whether the other one has come.
const TURNS: u32 = 5_000_000;

impl Meeting {
    fn wait(&self) {
        for _turn in 0..TURNS {
            if self.came.load(Ordering::SeqCst) == 1 {
                self.met.store(1, Ordering::SeqCst);
                return;
            }
            thread::yield_now();
        }
    }
}

impl Gate for Meeting {
    fn arrive(&self, round: u64, worker: u32) {
        if round == 1 && worker == 1 {
            self.came.store(1, Ordering::SeqCst);
        }
        if round == 1 && worker == 0 {
            self.wait();
        }
    }
}

/// Whether worker 0 met worker 1 at the gate, and the run left what it should.
fn meets<R: Threads + Sync>(rt: &R, alloc: Global, workers: u32) -> Result<bool, Memory> {
    let meeting = Meeting {
        came: AtomicU64::new(0),
        met: AtomicU64::new(0),
    };
    let want = Want {
        end: RunEnd::Quiet,
        trace: Trace::Any,
        firings: Some(6),
        out: &[8, 9, 10],
        second: &[7, 8, 9],
    };
    let case = Case {
        workers,
        ..plain(Net::Fork, &[7, 8, 9])
    };
    let (_ran, as_wanted) = run_past(rt, alloc, case, want, &meeting)?;
    Ok(as_wanted && meeting.met.load(Ordering::SeqCst) == 1)
}

#[test]
fn two_workers_are_at_work_at_once(rt: HostRuntime) -> Result<(), Memory> {
    for &workers in &[2u32, 3, 64] {
        let met = meets(&rt, rt.alloc(), workers)?;
        assert!(rt; met, "{workers}");
    }
    Ok(())
}
