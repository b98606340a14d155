//! Runs in which a call fails.

use kit_runs::{Case, Net, Trace, Want, plain, run};
use round_runner::RunEnd;
use rvc_base::Memory;
use std::alloc::Global;
use std::thread::Threads;

/// Three tokens that one actor adds one to: their trace and output.
const TRACE: &[u8] = b"r\nf 0 0\nf 0 0\nf 0 0\nr\nq\n";

const OUT: &[u8] = &[1, 2, 0];

/// A call that fails, and how many bytes stand then in the trace and in the output.
#[derive(Clone, Copy)]
struct Fault {
    pull: Option<u64>,
    put: Option<u64>,
    step: u32,
    end: RunEnd,
    trace: u64,
    out: u64,
}

/// The first of these bytes.
fn first_of(bytes: &[u8], count: u64) -> &[u8] {
    let count = (count as usize).min(bytes.len());
    &bytes[..count]
}

/// Whether a run of that actor is cut off so.
fn is_cut<R: Threads + Sync>(rt: &R, alloc: Global, fault: Fault) -> Result<bool, Memory> {
    let case = Case {
        pull: fault.pull,
        put: fault.put,
        step: fault.step,
        ..plain(Net::Inc, &[0, 1, 255])
    };
    let want = Want {
        end: fault.end,
        trace: Trace::Is(first_of(TRACE, fault.trace)),
        firings: None,
        out: first_of(OUT, fault.out),
        second: &[],
    };
    let (_ran, as_wanted) = run(rt, alloc, case, want)?;
    Ok(as_wanted)
}

/// How many bytes a call moves, and how many pulls, puts of the output and puts of the trace there are then.
const STEPS: &[(u32, u64, u64, u64)] = &[(1, 4, 3, 24), (3, 2, 1, 8), (65_536, 2, 1, 1)];

/// The end of a run in which this pull fails, if there are so many.
fn pull_fault(step: u32, pulls: u64, pull: u64) -> Fault {
    let fails = pull <= pulls;
    Fault {
        pull: Some(pull),
        put: None,
        step,
        end: if fails {
            RunEnd::ReadFault { feed: 1 }
        } else {
            RunEnd::Quiet
        },
        trace: if fails { 0 } else { 24 },
        out: if fails { 0 } else { 3 },
    }
}

#[test]
fn each_pull_fails_once(rt: HostRuntime) -> Result<(), Memory> {
    for &(step, pulls, _outs, _lines) in STEPS {
        for pull in 1..=5_u64 {
            let cut = is_cut(&rt, rt.alloc(), pull_fault(step, pulls, pull))?;
            assert!(rt; cut, "{step} {pull}");
        }
    }
    Ok(())
}

/// The end of a run in which this put fails: of the output, of the trace, or of none.
fn put_fault(step: u32, outs: u64, lines: u64, put: u64) -> Fault {
    let before = put.saturating_sub(1);
    let whole = Fault {
        pull: None,
        put: Some(put),
        step,
        end: RunEnd::Quiet,
        trace: 24,
        out: 3,
    };
    if before < outs {
        return Fault {
            end: RunEnd::WriteFault { channel: 2 },
            trace: 0,
            out: before.saturating_mul(u64::from(step)),
            ..whole
        };
    }
    if before - outs < lines {
        return Fault {
            end: RunEnd::WriteFault { channel: 1 },
            trace: (before - outs).saturating_mul(u64::from(step)),
            ..whole
        };
    }
    whole
}

#[test]
fn each_put_fails_once(rt: HostRuntime) -> Result<(), Memory> {
    for &(step, _pulls, outs, lines) in STEPS {
        for put in 1..=30_u64 {
            let cut = is_cut(&rt, rt.alloc(), put_fault(step, outs, lines, put))?;
            assert!(rt; cut, "{step} {put}");
        }
    }
    Ok(())
}

/// The pull that fails, how many bytes a call moves, and the trace, the firings and the output, if a link holds two
/// tokens: no line of the round in which the fault comes.
const LATE: &[(u64, u32, &[u8], u64, &[u8])] = &[
    (2, 1, b"", 0, &[]),
    (3, 1, b"r\nf 0 0\nf 0 0\n", 2, &[1, 2]),
    (4, 1, b"r\nf 0 0\nf 0 0\n", 2, &[1, 2]),
    (2, 3, b"r\nf 0 0\nf 0 0\n", 2, &[1, 2]),
];

/// How a run with a link of two tokens ended, and whether it is cut off so.
fn run_late<R: Threads + Sync>(
    rt: &R,
    alloc: Global,
    late: (u64, u32, &[u8], u64, &[u8]),
) -> Result<bool, Memory> {
    let (pull, step, trace, firings, out) = late;
    let case = Case {
        pull: Some(pull),
        step,
        ..plain(Net::Narrow, &[0, 1, 255])
    };
    let want = Want {
        end: RunEnd::ReadFault { feed: 1 },
        trace: Trace::Is(trace),
        firings: Some(firings),
        out,
        second: &[],
    };
    let (_ran, as_wanted) = run(rt, alloc, case, want)?;
    Ok(as_wanted)
}

#[test]
fn a_pull_fails_in_a_later_round(rt: HostRuntime) -> Result<(), Memory> {
    for &late in LATE {
        let pull = late.0;
        let as_wanted = run_late(&rt, rt.alloc(), late)?;
        assert!(rt; as_wanted, "{pull}");
    }
    Ok(())
}

/// An input of three tokens feeds two actors, with an output each: the pull and the put that fail, the end, and what the
/// two outputs get. The feed or the channel of the second actor is named.
const FORKED: &[(Option<u64>, Option<u64>, RunEnd, &[u8], &[u8])] = &[
    (Some(2), None, RunEnd::ReadFault { feed: 1 }, &[], &[]),
    (Some(3), None, RunEnd::ReadFault { feed: 2 }, &[], &[]),
    (Some(4), None, RunEnd::ReadFault { feed: 2 }, &[], &[]),
    (None, Some(1), RunEnd::WriteFault { channel: 2 }, &[], &[]),
    (
        None,
        Some(2),
        RunEnd::WriteFault { channel: 3 },
        &[8, 9, 10],
        &[],
    ),
    (
        None,
        Some(3),
        RunEnd::WriteFault { channel: 1 },
        &[8, 9, 10],
        &[7, 8, 9],
    ),
];

/// How the run of two actors ended, and whether it is cut off so, with an empty trace.
fn run_forked<'a, R: Threads + Sync>(
    rt: &R,
    alloc: Global,
    forked: (Option<u64>, Option<u64>, RunEnd, &'a [u8], &'a [u8]),
) -> Result<bool, Memory> {
    let (pull, put, end, out, second) = forked;
    let case = Case {
        pull,
        put,
        ..plain(Net::Fork, &[7, 8, 9])
    };
    let want = Want {
        end,
        trace: Trace::Is(&[]),
        firings: None,
        out,
        second,
    };
    let (_ran, as_wanted) = run(rt, alloc, case, want)?;
    Ok(as_wanted)
}

#[test]
fn the_feed_or_channel_that_failed_is_named(rt: HostRuntime) -> Result<(), Memory> {
    for &forked in FORKED {
        let as_wanted = run_forked(&rt, rt.alloc(), forked)?;
        let (pull, put) = (forked.0.unwrap_or(0), forked.1.unwrap_or(0));
        assert!(rt; as_wanted, "{pull} {put}");
    }
    Ok(())
}
