//! Rows of networks with what a loading asks for and answers.

use cal_files::Names;
use fnl_files::{FileKind, load_network};
use kit_files::{Files, library, outcome, told};
use std::alloc::Global;
use std::process::Abort;

/// The class of the top, which of its files is meant, the files, and what is answered, as for an actor.
type Row = (&'static str, FileKind, Files, &'static str);

const TWICE: &str =
    "<XDF name='Top'><Instance id='a'><Class name='A'/></Instance><Instance id='b'><Class name='A'/></Instance></XDF>";

const ONE: &str = "<XDF name='Top'><Instance id='a'><Class name='A'/></Instance></XDF>";

const MIXED: &str =
    "<XDF name='Top'><Instance id='m'><Class name='p.M'/></Instance><Instance id='b'><Class name='B'/></Instance></XDF>";

const INNER: &str = "<XDF name='M'><Instance id='a'><Class name='A'/></Instance></XDF>";

const INNER_MIXED: &str = "<XDF name='M'><Instance id='n'><Class name='q.N'/></Instance></XDF>";

const LOADED: &[Row] = &[
    // A class that is met again isn't read again, nor is its network looked up again.
    (
        "Top",
        FileKind::Network,
        &[("Top.xdf", TWICE), ("A.cal", "actor A () ==> : end")],
        "Top.xdf A.xdf A.cal | loaded | Top.xdf A.cal",
    ),
    // File by file, in the order of their texts.
    (
        "Top",
        FileKind::Either,
        &[
            ("A.cal", "import q.U.*; actor A () ==> : end"),
            ("B.cal", "actor B () ==> : end"),
            ("Top.xdf", MIXED),
            ("p/M.xdf", INNER),
            ("q/U.cal", "package q; unit U : end"),
        ],
        "Top.xdf p/M.xdf B.xdf B.cal A.xdf A.cal q/U.cal | loaded | Top.xdf p/M.xdf B.cal A.cal q/U.cal",
    ),
    // Of the class of an instance the network is read, and an import of the same class reads the other file.
    (
        "Top",
        FileKind::Network,
        &[
            ("B.cal", "import p.M.x; actor B () ==> : end"),
            ("Top.xdf", MIXED),
            ("p/M.cal", "package p; unit M : end"),
            ("p/M.xdf", "<XDF name='M'/>"),
        ],
        "Top.xdf p/M.xdf B.xdf B.cal p/M.cal | loaded | Top.xdf p/M.xdf B.cal p/M.cal",
    ),
    // Of the class of an instance that was imported before, the network is still looked up.
    (
        "Top",
        FileKind::Network,
        &[
            ("B.cal", "import A.x; actor B () ==> : end"),
            ("A.cal", "unit A : end"),
            ("Top.xdf", MIXED),
            ("p/M.xdf", INNER_MIXED),
            ("q/N.xdf", INNER),
        ],
        "Top.xdf p/M.xdf B.xdf B.cal q/N.xdf A.cal A.xdf | loaded | Top.xdf p/M.xdf B.cal q/N.xdf A.cal",
    ),
    // An actor as the top, beside a network of its class.
    (
        "p.A",
        FileKind::Actor,
        &[
            ("p/A.cal", "package p; actor A () ==> : end"),
            ("p/A.xdf", "<"),
        ],
        "p/A.cal | loaded | p/A.cal",
    ),
    // A network that holds itself is read once.
    (
        "A",
        FileKind::Network,
        &[(
            "A.xdf",
            "<XDF name='A'><Instance id='a'><Class name='A'/></Instance></XDF>",
        )],
        "A.xdf | loaded | A.xdf",
    ),
];

const REFUSED: &[Row] = &[
    // The top has no file of its kind.
    (
        "p.No",
        FileKind::Network,
        &[("p/No.cal", "actor No () ==> : end")],
        "p/No.xdf | N1 in 0 at 0 |",
    ),
    // The class of an instance has none: its element.
    (
        "Top",
        FileKind::Network,
        &[("Top.xdf", ONE)],
        "Top.xdf A.xdf A.cal | N1 in 1 at 33 | Top.xdf",
    ),
    // An import of its actor has none.
    (
        "Top",
        FileKind::Network,
        &[
            ("Top.xdf", ONE),
            ("A.cal", " import U.*; actor A () ==> : end"),
        ],
        "Top.xdf A.xdf A.cal U.cal | S3 in 2 at 1 | Top.xdf A.cal",
    ),
    // A text that is no network, and one that is no actor.
    (
        "Top",
        FileKind::Network,
        &[("Top.xdf", "<XDF name='Top'>")],
        "Top.xdf | F1 in 1 at 16 | Top.xdf",
    ),
    (
        "Top",
        FileKind::Network,
        &[("Top.xdf", MIXED), ("p/M.xdf", INNER), ("B.cal", "$")],
        "Top.xdf p/M.xdf B.xdf B.cal | L1 in 3 at 0 | Top.xdf p/M.xdf B.cal",
    ),
];

/// Rows with the number of the read that fails.
const FAILING: &[(u64, Row)] = &[
    // The network of a class can't be read, and that of its actor isn't looked up.
    (
        2,
        (
            "Top",
            FileKind::Network,
            &[("Top.xdf", ONE), ("A.cal", "actor A () ==> : end")],
            "Top.xdf A.xdf | read fault 2 | Top.xdf A.xdf",
        ),
    ),
    (
        3,
        (
            "Top",
            FileKind::Network,
            &[("Top.xdf", ONE), ("A.cal", "actor A () ==> : end")],
            "Top.xdf A.xdf A.cal | read fault 2 | Top.xdf A.cal",
        ),
    ),
];

/// Stops at a row whose answer is another.
fn hold(rt: &impl Abort, a: Global, row: Row, failing: u64) {
    let (top, kind, files, want) = row;
    let held = library(a, files, failing).expect(rt, "memory");
    let mut library = held.expect(rt, "names that differ");
    let mut names = Names::new(a);
    let fault = load_network(a, &mut library, top, kind, &mut names).err();
    let ended = outcome(a, fault).expect(rt, "a text");
    let found = told(a, library.asked.as_str(), ended.as_str(), &names).expect(rt, "a text");
    let holds = found.as_str() == want;
    assert!(rt; holds, "{want} is wanted, and {found} is given");
}

#[test]
fn networks_that_are_read(rt: HostRuntime) {
    for &row in LOADED {
        hold(&rt, rt.alloc(), row, 0);
    }
}

#[test]
fn networks_that_are_refused(rt: HostRuntime) {
    for &row in REFUSED {
        hold(&rt, rt.alloc(), row, 0);
    }
    for &(failing, row) in FAILING {
        hold(&rt, rt.alloc(), row, failing);
    }
}
