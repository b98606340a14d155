//! What runs write, by each policy, and whom the gate sees.

use crate::rows::BLOCK;
use kit_runs::{Case, Net, Ran, Rounds, Trace, Want, plain, run, run_past};
use round_runner::RunEnd;
use rvc_base::Memory;
use rvc_io::Gate;
use std::alloc::Global;
use std::sync::atomic::{AtomicU64, Ordering};
use std::thread::Threads;

/// A policy, how often an instance may fire in a round, how many bytes a call moves, and, as `tools/round_traces.py` finds
/// them, how many rounds the block takes and the FNV-1a number of its trace.
type Row = (Rounds, u32, u32, u64, u64);

const POLICIES: &[Row] = &[
    (Rounds::All, 1, 65_536, 134, 0x4AFF_D15E_FE43_EB03),
    (Rounds::All, 100, 1, 4, 0x25CD_710F_FB46_468F),
    (Rounds::Turn, 1, 65_536, 202, 0xAEE8_0DE8_5F10_24DF),
    (Rounds::Turn, 100, 3, 5, 0x1898_0FF3_BFC1_9683),
    (Rounds::Seed(7), 1, 3, 190, 0x4959_0DAB_B0D1_6C2F),
    (Rounds::Seed(7), 100, 65_536, 8, 0x737C_572D_55B3_D477),
    (Rounds::Seed(0), 2, 1, 97, 0xD87B_D58E_EA5C_7F37),
    (Rounds::All, 64, 65_536, 5, 0x91D2_7A51_AF7F_3E53),
];

/// A network whose rounds a policy makes.
fn by_policy(net: Net, input: &[u8], row: Row) -> Case<'_> {
    let (rounds, burst, step, _rounds, _number) = row;
    Case {
        rounds,
        burst,
        step,
        ..plain(net, input)
    }
}

/// The block, each number 128 higher, and none below 0.
const BLOCK_OUT: &[u8] = &[
    0xE4, 0, 0x80, 0x80, 0x80, 0x80, 0x80, 0x80, 0x80, 0x9B, 0x80, 0x80, 0x80, 0x80, 0x80, 0x80,
    0x80, 0x80, 0x80, 0x80, 0x80, 0x80, 0x80, 0x80, 0x80, 0x80, 0x80, 0x80, 0x80, 0x80, 0x80, 0x80,
    0x80, 0x80, 0x80, 0x80, 0x80, 0x80, 0x80, 0x80, 0x80, 0x80, 0x80, 0x80, 0x80, 0x80, 0x80, 0x80,
    0x80, 0x80, 0x80, 0x80, 0x80, 0x80, 0x80, 0x80, 0x80, 0x80, 0x80, 0x80, 0x80, 0x80, 0x80, 0x85,
];

/// The trace doesn't depend on how many workers there are.
const WORKERS: &[u32] = &[1, 2, 3, 64];

/// How the block's run ended, and whether it left what is wanted.
fn run_block<R: Threads + Sync>(
    rt: &R,
    alloc: Global,
    row: Row,
    workers: u32,
) -> Result<(Ran, bool), Memory> {
    let want = Want {
        end: RunEnd::Quiet,
        trace: Trace::Has(row.4),
        firings: Some(133),
        out: BLOCK_OUT,
        second: &[],
    };
    let case = Case {
        workers,
        ..by_policy(Net::Blocks, BLOCK, row)
    };
    run(rt, alloc, case, want)
}

#[test]
fn outputs_are_those_of_each_policy(rt: HostRuntime) -> Result<(), Memory> {
    for &row in POLICIES {
        for &workers in WORKERS {
            let (ran, as_wanted) = run_block(&rt, rt.alloc(), row, workers)?;
            let is_counted = ran.rounds == row.3 && ran.arrived == 8 && ran.sent == 64;
            let trace = row.4;
            assert!(rt; as_wanted && is_counted, "{trace} {workers} {ran:?}");
        }
    }
    Ok(())
}

const FORK_WANT: Want<'_> = Want {
    end: RunEnd::Quiet,
    trace: Trace::Any,
    firings: Some(6),
    out: &[8, 9, 10],
    second: &[7, 8, 9],
};

#[test]
fn an_input_feeds_two_actors(rt: HostRuntime) -> Result<(), Memory> {
    for &row in POLICIES {
        let case = by_policy(Net::Fork, &[7, 8, 9], row);
        let (ran, as_wanted) = run(&rt, rt.alloc(), case, FORK_WANT)?;
        let trace = row.4;
        assert!(rt; as_wanted, "{trace} {ran:?}");
    }
    Ok(())
}

/// Counts how often worker 0 starts, and adds up the rounds in which it does.
#[derive(Drop)]
struct Seen {
    starts: AtomicU64,
    rounds: AtomicU64,
}

impl Gate for Seen {
    fn arrive(&self, round: u64, worker: u32) {
        if worker == 0 {
            self.starts.fetch_add(1, Ordering::SeqCst);
            self.rounds.fetch_add(round, Ordering::SeqCst);
        }
    }
}

/// A network, its budget, in how many rounds a worker starts, and these rounds added up: in each one that has instances
/// and a firing left.
const STARTS: &[(Net, u64, u64, u64)] = &[
    (Net::Inc, 9, 2, 3),
    (Net::Inc, 2, 1, 1),
    (Net::Inc, 0, 0, 0),
    (Net::Empty, 9, 0, 0),
];

/// How often a run's worker starts, and these rounds added up.
fn starts_of<R: Threads + Sync>(
    rt: &R,
    alloc: Global,
    net: Net,
    budget: u64,
) -> Result<(u64, u64), Memory> {
    let seen = Seen {
        starts: AtomicU64::new(0),
        rounds: AtomicU64::new(0),
    };
    let want = Want {
        end: RunEnd::Quiet,
        trace: Trace::Any,
        firings: None,
        out: &[],
        second: &[],
    };
    let case = Case {
        budget,
        ..plain(net, &[0, 1, 255])
    };
    let _ran = run_past(rt, alloc, case, want, &seen)?;
    Ok((
        seen.starts.load(Ordering::SeqCst),
        seen.rounds.load(Ordering::SeqCst),
    ))
}

#[test]
fn the_gate_is_told_of_each_start(rt: HostRuntime) -> Result<(), Memory> {
    for &(net, budget, starts, rounds) in STARTS {
        let found = starts_of(&rt, rt.alloc(), net, budget)?;
        assert!(rt; found == (starts, rounds), "{starts} {budget}");
    }
    Ok(())
}
