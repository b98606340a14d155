//! The numbers of runs that are replayed.

use crate::replays::{Case, told};
use crate::rows::{GROWS_TO_4, INC, RING};
use kit_runs::Net;
use net_model::Counts;
use std::alloc::Global;

/// A network, its input, a trace, what arrived on each link, the bytes that were left at the end of its feed, and what was
/// sent to each output.
type Row<'a> = (Net, &'a [u8], &'a str, &'a [u64], &'a [u8], &'a [u64]);

const ROWS: &[Row] = &[
    (Net::Inc, &[0, 1, 255], INC, &[3, 0], &[0, 0], &[3]),
    // A byte at the end is no token; its end is read by the first delivery.
    (
        Net::TwoBytes,
        &[7, 0, 8, 0, 9],
        "rvc-trace 1 1 2\ni 0 Inc Inc\nr\nf 0 0\nf 0 0\nr\nq\n",
        &[2, 0],
        &[1, 0],
        &[2],
    ),
    // What is pulled to judge the end hasn't arrived.
    (
        Net::TwoBytes,
        &[7, 0, 8, 0, 9],
        "rvc-trace 1 1 2\ni 0 Inc Inc\nb\n",
        &[0, 0],
        &[0, 0],
        &[0],
    ),
    // What was sent and didn't leave before the trap.
    (
        Net::Div,
        &[10, 2, 7, 0],
        "rvc-trace 1 1 2\ni 0 Div Div\nr\nf 0 0\nt 0 0 DivideByZero\n",
        &[4, 0],
        &[0, 0],
        &[1],
    ),
    (Net::Ring, &[], RING, &[0, 0], &[0, 0], &[]),
    (
        Net::Pair,
        &[1, 2, 3, 4],
        GROWS_TO_4,
        &[4, 0, 0, 0, 0],
        &[0, 0, 0, 0, 0],
        &[2],
    ),
    // What came while a growth was judged arrives at the next delivery.
    (
        Net::Short,
        &[1, 2, 3, 4],
        "rvc-trace 2 4 6 4\ni 0 c Copy\ni 1 s Sum\ni 2 j Join\ni 3 r Race\nr\nf 0 0\nr\nf 3 0\ng 3 2\nf 0 0\nr\nb\n",
        &[4, 0, 0, 0, 2, 0],
        &[0, 0, 0, 0, 0, 0],
        &[0],
    ),
];

/// The numbers of a trace that is a run's.
fn numbers_of(alloc: Global, row: Row<'_>) -> Option<Counts> {
    let (net, input, trace, _, _, _) = row;
    let case = Case {
        net,
        input,
        grow: if net == Net::Pair || net == Net::Short {
            4
        } else {
            0
        },
        trace: trace.as_bytes(),
        failing: &[],
    };
    match told(alloc, case) {
        Ok(Ok(run)) => Some(run.counts),
        Ok(Err(_)) | Err(_) => None,
    }
}

#[test]
fn runs_have_their_numbers(rt: HostRuntime) {
    for &row in ROWS {
        let (_, _, trace, arrived, rests, sent) = row;
        let Some(found) = numbers_of(rt.alloc(), row) else {
            assert!(rt; false, "{trace}");
            return;
        };
        assert!(rt; found.arrived.as_slice() == arrived, "{trace}");
        assert!(rt; found.rests.as_slice() == rests, "{trace}");
        assert!(rt; found.sent.as_slice() == sent, "{trace}");
    }
}
