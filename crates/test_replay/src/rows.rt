//! Whole traces, each cause, and feeds that fail.

use crate::replays::{Answer, Case, replay_case};
use kit_runs::Net;
use rvc_base::Trap;
use std::alloc::Global;
use trace_replay::Why;
use trace_text::Line;

pub(crate) const INC: &str = "rvc-trace 1 1 2\ni 0 Inc Inc\nr\nf 0 0\nf 0 0\nf 0 0\nr\nq\n";

pub(crate) const RING: &str = "rvc-trace 1 2 2\ni 0 p Race\ni 1 q Race\nr\nf 0 1\nf 1 1\nr\nq\n";

pub(crate) const COUNTDOWN: &str =
    "rvc-trace 1 1 2\ni 0 d Countdown\nr\nf 0 0\nf 0 1\nf 0 2\nr\nq\n";

pub(crate) const STALLS: &str =
    "rvc-trace 1 3 5\ni 0 c Copy\ni 1 s Sum\ni 2 j Join\nr\nf 0 0\nr\ns 0 0 3\n";

pub(crate) const GROWS_TO_4: &str =
    "rvc-trace 2 3 5 4\ni 0 c Copy\ni 1 s Sum\ni 2 j Join\nr\nf 0 0\nr\ng 3 2\nr\nf 0 0\nr\nf 1 0\nr\nf 2 0\nr\nf 0 0\nr\ng 3 4\nr\nf 0 0\nr\nf 1 0\nr\nf 2 0\nr\nq\n";

pub(crate) const STALL: Line = Line::Stall {
    inst: 0,
    action: 0,
    link: 3,
};

const DIVIDES: Line = Line::Trap {
    inst: 0,
    action: 0,
    trap: Trap::DivideByZero,
};

const LATE: Line = Line::Trap {
    inst: 3,
    action: 1,
    trap: Trap::DivideByZero,
};

/// A network, its input, up to which capacity links grow, a trace, and its answer.
type Row<'a> = (Net, &'a [u8], u32, &'a str, Answer);

const ROWS: &[Row] = &[
    // Runs, by each end.
    (
        Net::Inc,
        &[0, 1, 255],
        0,
        INC,
        Answer::Ends(Line::Quiet, 3, 2),
    ),
    (
        Net::Inc,
        &[],
        0,
        "rvc-trace 1 1 2\ni 0 Inc Inc\nr\nq\n",
        Answer::Ends(Line::Quiet, 0, 1),
    ),
    (
        Net::Inc,
        &[0, 1, 255],
        0,
        "rvc-trace 1 1 2\ni 0 Inc Inc\nr\nf 0 0\nf 0 0\nr\nb\n",
        Answer::Ends(Line::Budget, 2, 2),
    ),
    (
        Net::Div,
        &[10, 2, 7, 0],
        0,
        "rvc-trace 1 1 2\ni 0 Div Div\nr\nf 0 0\nt 0 0 DivideByZero\n",
        Answer::Ends(DIVIDES, 1, 1),
    ),
    (Net::Ring, &[], 0, RING, Answer::Ends(Line::Quiet, 2, 2)),
    (
        Net::Countdown,
        &[1],
        0,
        COUNTDOWN,
        Answer::Ends(Line::Quiet, 3, 2),
    ),
    (
        Net::Countdown,
        &[2, 0, 1],
        0,
        "rvc-trace 1 1 2\ni 0 d Countdown\nr\nf 0 0\nf 0 1\nf 0 1\nf 0 2\nf 0 0\nf 0 2\nf 0 0\nf 0 1\nf 0 2\nr\nq\n",
        Answer::Ends(Line::Quiet, 9, 2),
    ),
    (
        Net::Pair,
        &[1, 2, 3, 4],
        0,
        STALLS,
        Answer::Ends(STALL, 1, 2),
    ),
    // Links that grow.
    (
        Net::Pair,
        &[1, 2, 3, 4],
        4,
        GROWS_TO_4,
        Answer::Ends(Line::Quiet, 8, 11),
    ),
    (
        Net::Pair,
        &[1, 2, 3, 4],
        2,
        "rvc-trace 2 3 5 2\ni 0 c Copy\ni 1 s Sum\ni 2 j Join\nr\nf 0 0\nr\ng 3 2\nr\nf 0 0\nr\nf 1 0\nr\nf 2 0\nr\nf 0 0\nr\ns 0 0 3\n",
        Answer::Ends(STALL, 5, 7),
    ),
    (
        Net::Pair,
        &[1, 2, 3, 4],
        0,
        GROWS_TO_4,
        Answer::Fails(1, Why::Header),
    ),
    (
        Net::Pair,
        &[1, 2, 3, 4],
        4,
        "rvc-trace 2 3 5 4\ni 0 c Copy\ni 1 s Sum\ni 2 j Join\nr\nf 0 0\nr\ng 3 3\n",
        Answer::Fails(8, Why::End),
    ),
    (
        Net::Pair,
        &[1, 2, 3, 4],
        4,
        "rvc-trace 2 3 5 4\ni 0 c Copy\ni 1 s Sum\ni 2 j Join\nr\nf 0 0\nr\ng 3 2\ng 3 4\n",
        Answer::Fails(9, Why::End),
    ),
    (
        Net::Pair,
        &[1, 2, 3, 4],
        4,
        "rvc-trace 2 3 5 4\ni 0 c Copy\ni 1 s Sum\ni 2 j Join\nr\nf 0 0\nr\ns 0 0 3\n",
        Answer::Fails(8, Why::End),
    ),
    // Links that grow behind firings that sent nothing.
    (
        Net::Beside,
        &[1, 2, 3, 4],
        4,
        "rvc-trace 2 4 6 4\ni 0 c Copy\ni 1 s Sum\ni 2 j Join\ni 3 r Race\nr\nf 0 0\nr\nf 3 0\ng 3 2\nf 0 0\nr\nb\n",
        Answer::Ends(Line::Budget, 3, 3),
    ),
    (
        Net::Behind,
        &[1, 2, 3, 4],
        4,
        "rvc-trace 2 4 6 4\ni 0 c Copy\ni 1 s Sum\ni 2 j Join\ni 3 r Race\nr\nf 0 0\nr\nf 3 0\ng 3 2\nr\nf 0 0\nr\nb\n",
        Answer::Ends(Line::Budget, 3, 4),
    ),
    // The rooms are those of the last delivery.
    (
        Net::Behind,
        &[1, 2, 3, 4],
        4,
        "rvc-trace 2 4 6 4\ni 0 c Copy\ni 1 s Sum\ni 2 j Join\ni 3 r Race\nr\nf 0 0\nr\nf 3 0\ng 3 2\nf 0 0\n",
        Answer::Fails(11, Why::NoRoom),
    ),
    // The network isn't stalled, something hasn't arrived, and the link grows to another capacity.
    (
        Net::Beside,
        &[1, 2, 3, 4],
        4,
        "rvc-trace 2 4 6 4\ni 0 c Copy\ni 1 s Sum\ni 2 j Join\ni 3 r Race\nr\nf 0 0\nr\ng 3 2\n",
        Answer::Fails(9, Why::End),
    ),
    (
        Net::Beside,
        &[1, 2, 3, 4],
        4,
        "rvc-trace 2 4 6 4\ni 0 c Copy\ni 1 s Sum\ni 2 j Join\ni 3 r Race\nr\nf 3 0\nf 0 0\ng 3 2\n",
        Answer::Fails(9, Why::End),
    ),
    (
        Net::Beside,
        &[1, 2, 3, 4],
        4,
        "rvc-trace 2 4 6 4\ni 0 c Copy\ni 1 s Sum\ni 2 j Join\ni 3 r Race\nr\nf 0 0\nr\nf 3 0\ng 3 3\n",
        Answer::Fails(10, Why::End),
    ),
    // More of the input is to come on the link of which a token was taken: it arrives at the next delivery, or counts as
    // arrived at the end.
    (
        Net::Short,
        &[1, 2, 3, 4],
        4,
        "rvc-trace 2 4 6 4\ni 0 c Copy\ni 1 s Sum\ni 2 j Join\ni 3 r Race\nr\nf 0 0\nr\nf 3 0\ng 3 2\nf 0 0\nr\nb\n",
        Answer::Ends(Line::Budget, 3, 3),
    ),
    (
        Net::Short,
        &[1, 2, 3, 4],
        4,
        "rvc-trace 2 4 6 4\ni 0 c Copy\ni 1 s Sum\ni 2 j Join\ni 3 r Race\nr\nf 0 0\nr\nf 3 0\ng 3 2\nb\n",
        Answer::Ends(Line::Budget, 2, 2),
    ),
    (
        Net::Short,
        &[1, 2, 3, 4],
        4,
        "rvc-trace 2 4 6 4\ni 0 c Copy\ni 1 s Sum\ni 2 j Join\ni 3 r Race\nr\nf 0 0\nr\nf 3 0\ng 3 2\n",
        Answer::Fails(11, Why::Cut),
    ),
    // Two tokens that came while the growth was judged arrive in their order: 7 is divided by 0.
    (
        Net::Late,
        &[1, 2, 7, 0],
        4,
        "rvc-trace 2 4 7 4\ni 0 c Copy\ni 1 s Sum\ni 2 j Join\ni 3 l Late\nr\nf 0 0\nr\nf 3 0\ng 3 2\nf 0 0\nr\nt 3 1 DivideByZero\n",
        Answer::Ends(LATE, 3, 3),
    ),
    // Until then they don't wait.
    (
        Net::Late,
        &[1, 2, 7, 0],
        4,
        "rvc-trace 2 4 7 4\ni 0 c Copy\ni 1 s Sum\ni 2 j Join\ni 3 l Late\nr\nf 0 0\nr\nf 3 0\ng 3 2\nf 0 0\nt 3 1 DivideByZero\n",
        Answer::Fails(12, Why::Trap),
    ),
    // Each cause.
    (
        Net::Inc,
        &[0],
        0,
        "rvc-trace 1 1 2\ni 0 Inc Inc\nr\nx\n",
        Answer::Fails(4, Why::Form),
    ),
    (
        Net::Inc,
        &[0],
        0,
        "rvc-trace 1 1 2\ni 0 Inc Inc\nr\ng 0 2\n",
        Answer::Fails(4, Why::Form),
    ),
    (
        Net::Inc,
        &[0],
        0,
        "rvc-trace 1 1 3\n",
        Answer::Fails(1, Why::Header),
    ),
    (
        Net::Inc,
        &[0],
        0,
        "rvc-trace 1 1 2\ni 0 Ink Inc\nr\nq\n",
        Answer::Fails(2, Why::Header),
    ),
    (
        Net::Inc,
        &[0],
        0,
        "rvc-trace 1 1 2\ni 0 Inc Inc\nr\nf 0 1\n",
        Answer::Fails(4, Why::NotExposed),
    ),
    (
        Net::Inc,
        &[0],
        0,
        "rvc-trace 1 1 2\ni 0 Inc Inc\nr\nf 1 0\n",
        Answer::Fails(4, Why::NotExposed),
    ),
    (
        Net::Ring,
        &[],
        0,
        "rvc-trace 1 2 2\ni 0 p Race\ni 1 q Race\nr\nf 0 1\nr\nf 1 1\nr\nq\n",
        Answer::Fails(7, Why::NotExposed),
    ),
    (
        Net::Pair,
        &[1, 2, 3, 4],
        0,
        "rvc-trace 1 3 5\ni 0 c Copy\ni 1 s Sum\ni 2 j Join\nr\nf 0 0\nf 0 0\n",
        Answer::Fails(7, Why::NoRoom),
    ),
    (
        Net::Div,
        &[7, 0],
        0,
        "rvc-trace 1 1 2\ni 0 Div Div\nr\nf 0 0\n",
        Answer::Fails(4, Why::Trap),
    ),
    (
        Net::Div,
        &[7, 0],
        0,
        "rvc-trace 1 1 2\ni 0 Div Div\nr\nt 0 0 Overflow\n",
        Answer::Fails(4, Why::Trap),
    ),
    (
        Net::Div,
        &[7, 1],
        0,
        "rvc-trace 1 1 2\ni 0 Div Div\nr\nt 0 0 DivideByZero\n",
        Answer::Fails(4, Why::Trap),
    ),
    (
        Net::Inc,
        &[0],
        0,
        "rvc-trace 1 1 2\ni 0 Inc Inc\nr\nb\nr\n",
        Answer::Fails(5, Why::After),
    ),
    (
        Net::Inc,
        &[0],
        0,
        "rvc-trace 1 1 2\ni 0 Inc Inc\nr\nf 0 ",
        Answer::Fails(4, Why::Cut),
    ),
    (Net::Inc, &[0], 0, "", Answer::Fails(1, Why::Cut)),
];

fn answer_to(alloc: Global, row: Row<'_>) -> Answer {
    let (net, input, grow, trace, _) = row;
    replay_case(
        alloc,
        Case {
            net,
            input,
            grow,
            trace: trace.as_bytes(),
            failing: &[],
        },
    )
}

#[test]
fn traces_come_to_their_answers(rt: HostRuntime) {
    for &row in ROWS {
        let trace = row.3;
        let wanted = row.4;
        let found = answer_to(rt.alloc(), row);
        assert!(rt; found == wanted, "{trace}{found:?}");
    }
}

/// Which call fails, behind the openings, and the feed that is named: the trace is pulled first, and the input at the
/// first delivery.
const FAULTS: &[(u64, u32)] = &[(4, 0), (5, 1)];

#[test]
fn a_feed_that_fails_is_named(rt: HostRuntime) {
    for &(call, feed) in FAULTS {
        let case = Case {
            net: Net::Inc,
            input: &[0, 1, 255],
            grow: 0,
            trace: INC.as_bytes(),
            failing: &[call],
        };
        let found = replay_case(rt.alloc(), case);
        assert!(rt; found == Answer::Unread(feed), "{call} {found:?}");
    }
}
