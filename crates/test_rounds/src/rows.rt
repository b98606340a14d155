//! Runs with their traces, outputs and numbers.

use kit_runs::{Case, MUCH, Net, Ran, Trace, Want, plain, run};
use round_runner::RunEnd;
use rvc_base::{ActId, InstId, LinkId, Memory, Trap};
use std::alloc::Global;
use std::thread::Threads;

const STALLED: RunEnd = RunEnd::Stalled {
    inst: InstId(0),
    action: ActId(0),
    link: LinkId(3),
};

const DIVIDES: RunEnd = RunEnd::Trapped {
    inst: InstId(0),
    action: ActId(0),
    trap: Trap::DivideByZero,
};

pub(crate) const BLOCK: &[u8] = &[
    0, 0, 0x64, 0, 0, 0, 0xD4, 0xFE, 2, 0, 0x1B, 0, 0x3A, 0, 5, 0,
];

/// A network, its input, the budget, how far links may grow, its trace, its output, the bytes that are dropped at the
/// end of its feed, and its end.
type Row<'a> = (Net, &'a [u8], u64, u32, &'a str, &'a [u8], u8, RunEnd);

const ROWS: &[Row] = &[
    (
        Net::Inc,
        &[0, 1, 255],
        MUCH,
        0,
        "r\nf 0 0\nf 0 0\nf 0 0\nr\nq\n",
        &[1, 2, 0],
        0,
        RunEnd::Quiet,
    ),
    (Net::Inc, &[], MUCH, 0, "r\nq\n", &[], 0, RunEnd::Quiet),
    (
        Net::Inc,
        &[0, 1, 255],
        2,
        0,
        "r\nf 0 0\nf 0 0\nr\nb\n",
        &[1, 2],
        0,
        RunEnd::Budget,
    ),
    (
        Net::Inc,
        &[0, 1, 255],
        3,
        0,
        "r\nf 0 0\nf 0 0\nf 0 0\nr\nq\n",
        &[1, 2, 0],
        0,
        RunEnd::Quiet,
    ),
    (Net::Inc, &[0], 0, 0, "r\nb\n", &[], 0, RunEnd::Budget),
    (
        Net::Div,
        &[10, 2, 7, 0, 9, 3],
        MUCH,
        0,
        "r\nf 0 0\nt 0 0 DivideByZero\n",
        &[5],
        0,
        DIVIDES,
    ),
    (
        Net::Wide,
        &[1, 128, 255],
        MUCH,
        0,
        "r\nf 0 0\nr\nq\n",
        &[1, 128],
        1,
        RunEnd::Quiet,
    ),
    (
        Net::Ring,
        &[],
        MUCH,
        0,
        "r\nf 0 1\nf 1 1\nr\nq\n",
        &[],
        0,
        RunEnd::Quiet,
    ),
    (
        Net::Itself,
        &[],
        MUCH,
        0,
        "r\nf 0 1\nr\nq\n",
        &[],
        0,
        RunEnd::Quiet,
    ),
    (Net::Empty, &[], MUCH, 0, "r\nq\n", &[], 0, RunEnd::Quiet),
    (
        Net::Pair,
        &[1, 2, 3, 4],
        MUCH,
        0,
        "r\nf 0 0\nr\ns 0 0 3\n",
        &[],
        0,
        STALLED,
    ),
    (
        Net::Pair,
        &[1, 2, 3, 4],
        MUCH,
        1,
        "r\nf 0 0\nr\ns 0 0 3\n",
        &[],
        0,
        STALLED,
    ),
    (
        Net::Pair,
        &[1, 2, 3, 4],
        MUCH,
        2,
        "r\nf 0 0\nr\ng 3 2\nr\nf 0 0\nr\nf 1 0\nr\nf 2 0\nr\nf 0 0\nr\ns 0 0 3\n",
        &[4],
        0,
        STALLED,
    ),
    (
        Net::Pair,
        &[1, 2, 3, 4],
        MUCH,
        4,
        "r\nf 0 0\nr\ng 3 2\nr\nf 0 0\nr\nf 1 0\nr\nf 2 0\nr\nf 0 0\nr\ng 3 4\nr\nf 0 0\nr\nf 1 0\nr\nf 2 0\nr\nq\n",
        &[4, 9],
        0,
        RunEnd::Quiet,
    ),
    (
        Net::Blocks,
        BLOCK,
        10,
        0,
        "r\nf 0 0\nf 0 2\nf 0 0\nf 0 2\nr\nf 0 0\nf 0 1\nr\nf 0 1\nf 0 2\nr\nf 0 0\nf 0 1\nr\nb\n",
        &[],
        0,
        RunEnd::Budget,
    ),
];

/// How many of these lines begin with a letter.
fn count(lines: &str, letter: u8) -> u64 {
    let mut count: u64 = 0;
    let mut before = b'\n';
    for &byte in lines.as_bytes() {
        if before == b'\n' && byte == letter {
            count = count.saturating_add(1);
        }
        before = byte;
    }
    count
}

/// How a run of this row ended, and whether all is as the row says.
fn row_holds<R: Threads + Sync>(
    rt: &R,
    alloc: Global,
    row: Row<'_>,
) -> Result<(Ran, bool), Memory> {
    let (net, input, budget, grow, trace, out, rest, end) = row;
    let want = Want {
        end,
        trace: Trace::Is(trace.as_bytes()),
        firings: Some(count(trace, b'f')),
        out,
        second: &[],
    };
    let case = Case {
        budget,
        grow,
        ..plain(net, input)
    };
    let (ran, as_wanted) = run(rt, alloc, case, want)?;
    let is_counted = ran.rounds == count(trace, b'r') && ran.rest == rest;
    Ok((ran, as_wanted && is_counted))
}

#[test]
fn runs(rt: HostRuntime) -> Result<(), Memory> {
    for &row in ROWS {
        let trace = row.4;
        let (ran, holds) = row_holds(&rt, rt.alloc(), row)?;
        assert!(rt; holds, "{trace} {ran:?}");
    }
    Ok(())
}

/// An output without a channel gets nothing, and what is sent to it is counted.
#[test]
fn an_output_without_a_channel_gets_nothing(rt: HostRuntime) -> Result<(), Memory> {
    let want = Want {
        end: RunEnd::Quiet,
        trace: Trace::Is(b"r\nf 0 0\nf 0 0\nr\nq\n"),
        firings: Some(2),
        out: &[],
        second: &[],
    };
    let closed = Case {
        open: false,
        ..plain(Net::Inc, &[1, 2])
    };
    let (ran, as_wanted) = run(&rt, rt.alloc(), closed, want)?;
    let is_counted = ran.rounds == 2 && ran.arrived == 2 && ran.rest == 0 && ran.sent == 2;
    assert!(rt; as_wanted && is_counted, "{ran:?}");
    Ok(())
}
