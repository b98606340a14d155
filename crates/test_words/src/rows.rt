//! Reports of commands that ended so.

ghost use Rattle.std.specs.Prelude.{◌≡◌, true};

use crate::samples::{BLOCKS, DIV, FSM, INC, INPUTS, MEET, NONE, Parts, Sample, WIDE, parts_of};
use cmd_report::{
    REPORT_CHANNEL, ReadAt, Status, Subject, report_certify, report_check, report_end, report_run,
};
use determinacy_cert::Reason;
use rvc_base::{ActId, InstId, LinkId, Place, Refusal, Rule, Trap};
use rvc_io::{Drains, Failed, MemDrains};
use rvc_words::UsageCause;
use std::alloc::Global;
use std::process::Abort;
use trace_replay::Why;

/// What is reported, with how many instances are certified if that is known.
#[derive(Clone, Copy)]
enum Kind {
    Run(Option<u64>),
    Check,
    Certify(u64),
    End,
}

/// The kind of a report, the network and its run, how the command ended, its exit status, and the report.
type Row = (Kind, Sample, Status, u8, &'static str);

/// How many bytes a call moves at most: one, a few, and more than a row has.
const STEPS: &[u32] = &[1, 3, 1000];

const A0: ActId = ActId(0);

const A1: ActId = ActId(1);

const I0: InstId = InstId(0);

const QUIET: Status = Status::Quiet;

const DONE: Status = Status::Done;

const ROWS: &[Row] = &[
    (
        Kind::Run(Some(1)),
        INC,
        QUIET,
        0,
        "instances 1\nlinks 2\ncertified 1\nfirings 3\nrounds 2\nin In 0 tokens 3 rest 0\nout Out tokens 3\nquiet\n",
    ),
    (
        Kind::Run(None),
        INC,
        QUIET,
        0,
        "instances 1\nlinks 2\nfirings 3\nrounds 2\nin In 0 tokens 3 rest 0\nout Out tokens 3\nquiet\n",
    ),
    (
        Kind::Run(Some(1)),
        NONE,
        QUIET,
        0,
        "instances 1\nlinks 2\ncertified 1\nfirings 0\nrounds 1\nin In 0 tokens 0 rest 0\nout Out tokens 0\nquiet\n",
    ),
    (
        Kind::Run(Some(0)),
        FSM,
        QUIET,
        0,
        "instances 1\nlinks 2\ncertified 0\nfirings 5\nrounds 2\nin In 0 tokens 5 rest 0\nout Out tokens 5\nquiet\n",
    ),
    (
        Kind::Run(Some(1)),
        WIDE,
        QUIET,
        0,
        "instances 1\nlinks 2\ncertified 1\nfirings 1\nrounds 2\nin In 0 tokens 1 rest 1\nout Out tokens 1\nquiet\n",
    ),
    (
        Kind::Run(Some(3)),
        BLOCKS,
        QUIET,
        0,
        "instances 3\nlinks 4\ncertified 3\nfirings 133\nrounds 5\nin In 0 tokens 8 rest 0\nout Out tokens 64\nquiet\n",
    ),
    (
        Kind::Run(Some(3)),
        BLOCKS,
        DONE,
        0,
        "instances 3\nlinks 4\ncertified 3\nfirings 133\nrounds 5\nin In 0 tokens 8 rest 0\nout Out tokens 64\ndone\n",
    ),
    (
        Kind::Run(Some(1)),
        DIV,
        Status::Trapped {
            inst: I0,
            action: A0,
            trap: Trap::DivideByZero,
        },
        5,
        "instances 1\nlinks 2\ncertified 1\nfirings 1\nrounds 1\nin In 0 tokens 6 rest 0\nout Out tokens 1\ntrapped 0 0 DivideByZero\n",
    ),
    (
        Kind::Run(Some(3)),
        MEET,
        Status::Stalled {
            inst: I0,
            action: A0,
            link: LinkId(3),
        },
        6,
        "instances 3\nlinks 5\ncertified 3\nfirings 1\nrounds 2\nin In 0 tokens 4 rest 0\nout Out tokens 0\nstalled 0 0 3\n",
    ),
    (
        Kind::Run(Some(2)),
        INPUTS,
        Status::Budget {
            firings: 18446744073709551615,
        },
        7,
        "instances 2\nlinks 6\ncertified 2\nfirings 18446744073709551615\nrounds 10\nin B 0 tokens 7 rest 1\nin A 2 tokens 20 rest 0\nin B 3 tokens 300 rest 3\nout X tokens 0\nout Y tokens 12\nbudget 18446744073709551615\n",
    ),
    (
        Kind::Run(Some(2)),
        INPUTS,
        Status::ReadFault(ReadAt::Feed(1)),
        2,
        "read fault b\n",
    ),
    (
        Kind::Run(Some(2)),
        INPUTS,
        Status::ReadFault(ReadAt::Feed(2)),
        2,
        "read fault a\n",
    ),
    (
        Kind::Run(Some(2)),
        INPUTS,
        Status::ReadFault(ReadAt::Feed(3)),
        2,
        "read fault b\n",
    ),
    (
        Kind::End,
        INPUTS,
        Status::ReadFault(ReadAt::Feed(0)),
        2,
        "read fault t\n",
    ),
    (
        Kind::End,
        INC,
        Status::ReadFault(ReadAt::Feed(1)),
        2,
        "read fault in\n",
    ),
    (
        Kind::End,
        INC,
        Status::ReadFault(ReadAt::File(2)),
        2,
        "read fault p/Lib.cal\n",
    ),
    (
        Kind::Run(None),
        INC,
        Status::WriteFault { channel: 2 },
        3,
        "write fault 2\n",
    ),
    (
        Kind::Run(None),
        INC,
        Status::OutOfMemory,
        8,
        "out of memory\n",
    ),
    (
        Kind::Run(None),
        INC,
        Status::NotRun {
            line: 7,
            why: Why::NotExposed,
        },
        9,
        "not a run 7 NotExposed\n",
    ),
    (
        Kind::End,
        INC,
        Status::NotRun {
            line: 8,
            why: Why::Cut,
        },
        9,
        "not a run 8 Cut\n",
    ),
    (
        Kind::End,
        INC,
        Status::Usage(UsageCause::Number),
        1,
        "usage number\nrvc VERB TOP [PORT=FILE ..] [--trace FILE] [--workers N] [--round P] [--burst N] [--budget N] [--grow N]\n",
    ),
    (
        Kind::End,
        INC,
        Status::Refused(Refusal {
            rule: Rule(801),
            place: Place { file: 0, offset: 0 },
        }),
        4,
        "refused N1 words 0\n",
    ),
    (
        Kind::Check,
        INC,
        Status::Refused(Refusal {
            rule: Rule(504),
            place: Place {
                file: 1,
                offset: 91,
            },
        }),
        4,
        "refused A4 Amb.cal 91\n",
    ),
    (
        Kind::Check,
        INC,
        Status::Refused(Refusal {
            rule: Rule(611),
            place: Place { file: 2, offset: 7 },
        }),
        4,
        "refused Z11 p/Lib.cal 7\n",
    ),
    (Kind::Check, BLOCKS, DONE, 0, "instances 3\nlinks 4\ndone\n"),
    (Kind::Certify(1), INC, DONE, 0, "certified 1\ndone\n"),
    (
        Kind::Certify(0),
        INC,
        Status::Uncertified {
            inst: I0,
            state: 0,
            a: A0,
            b: A1,
            reason: Reason::C1,
        },
        10,
        "certified 0\nuncertified 0 0 0 1 C1\n",
    ),
    (
        Kind::Certify(0),
        INC,
        Status::OutOfMemory,
        8,
        "out of memory\n",
    ),
];

/// Puts the report of a row.
fn put_row<D: Drains>(
    kind: Kind,
    status: Status,
    instances: u64,
    parts: &Parts,
    drains: &mut D,
) -> Result<(), Failed>
    requires { (D.channels drains.old).is_open REPORT_CHANNEL ≡ true }
{
    let subject = Subject {
        files: parts.files.as_slice(),
        trace: "t",
        words: parts.words.as_slice(),
        instances,
        links: parts.links.as_slice(),
        ins: parts.ins.as_slice(),
        outs: parts.outs.as_slice(),
    };
    match kind {
        Kind::Run(certified) => report_run(&status, &subject, certified, &parts.counts, drains),
        Kind::Check => report_check(&status, &subject, drains),
        Kind::Certify(certified) => report_certify(&status, &subject, certified, drains),
        Kind::End => report_end(&status, &subject, drains),
    }
}

/// The report of a row is its text, if a call moves at most so many bytes.
fn reports<R: Abort>(rt: &R, alloc: Global, row: &Row, step: u32) {
    let &(kind, sample, status, code, text) = row;
    assert!(rt; step > 0);
    let parts = parts_of(alloc, &sample).expect(rt, "parts");
    let drains = MemDrains::new(alloc, Vec::new(alloc), step, 3, 4096);
    let mut drains = drains.expect(rt, "channels");
    let put = put_row(kind, status, sample.instances, &parts, &mut drains);
    assert!(rt; put.is_ok(), "{text}");
    assert!(rt; drains.held(REPORT_CHANNEL) == text.as_bytes(), "{text}");
    assert!(rt; status.code() == code, "{text}");
}

#[test]
fn reports_are_exact(rt: HostRuntime) {
    for row in ROWS {
        for &step in STEPS {
            reports(&rt, rt.alloc(), row, step);
        }
    }
}

/// What is put if this call fails.
const FAULTS: &[(u64, &str)] = &[
    (1, ""),
    (2, "instances"),
    (3, "instances "),
    (4, "instances 1"),
    (6, "instances 1\nlinks"),
];

#[test]
fn a_failed_put_leaves_a_prefix(rt: HostRuntime) {
    for &(failing, text) in FAULTS {
        let alloc = rt.alloc();
        let parts = parts_of(alloc, &INC).expect(&rt, "parts");
        let failing = vec![in alloc; failing].expect(&rt, "a list");
        let drains = MemDrains::new(alloc, failing, 1000, 3, 4096);
        let mut drains = drains.expect(&rt, "channels");
        let put = put_row(Kind::Run(None), QUIET, 1, &parts, &mut drains);
        assert!(&rt; put.is_err(), "{text}");
        assert!(&rt; drains.held(REPORT_CHANNEL) == text.as_bytes(), "{text}");
    }
}
