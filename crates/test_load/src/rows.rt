//! Rows of files, and what a loading asks for and answers.

use cal_files::{Names, class_of, load, read_actor};
use kit_files::{Files, Logged, library, outcome, told};
use std::alloc::Global;
use std::process::Abort;

/// A top, the files, and what is answered: the names that were asked for, and how the loading ended, with the names of
/// the files that have a number.
type Row = (&'static str, Files, &'static str);

const LOADED: &[Row] = &[
    // One file.
    (
        "A.cal",
        &[("A.cal", "actor A () ==> : end")],
        "A.cal | loaded | A.cal",
    ),
    // Imports in the order of the text, file by file.
    (
        "q/A.cal",
        &[
            (
                "q/A.cal",
                "package q; import p.U.*; import V.f; actor A () ==> : end",
            ),
            ("p/U.cal", "package p; import W.*; unit U : end"),
            ("V.cal", "import W.g; unit V : end"),
            ("W.cal", "unit W : end"),
        ],
        "q/A.cal p/U.cal V.cal W.cal | loaded | q/A.cal p/U.cal V.cal W.cal",
    ),
    // A unit that is met again isn't read again, nor is a file that imports lead back to.
    (
        "A.cal",
        &[
            (
                "A.cal",
                "import U.a; import U.b; import A.*; actor A () ==> : end",
            ),
            ("U.cal", "import U.*; import A.x; unit U : end"),
        ],
        "A.cal U.cal | loaded | A.cal U.cal",
    ),
    // What a file declares isn't asked here.
    (
        "A.cal",
        &[("A.cal", "package p; unit B : end")],
        "A.cal | loaded | A.cal",
    ),
];

const REFUSED: &[Row] = &[
    // The top has no file.
    ("No.cal", &[], "No.cal | N1 in 0 at 0 |"),
    // An import has none: the word `import`, in the file that asks.
    (
        "A.cal",
        &[
            ("A.cal", "import U.*; actor A () ==> : end"),
            ("U.cal", " import p.q.V.*; unit U : end"),
            ("p.q.V.cal", "unit V : end"),
        ],
        "A.cal U.cal p/q/V.cal | S3 in 2 at 1 | A.cal U.cal",
    ),
    // The lexis comes before the grammar.
    (
        "A.cal",
        &[("A.cal", "actor actor $")],
        "A.cal | L1 in 1 at 12 | A.cal",
    ),
    (
        "A.cal",
        &[
            ("A.cal", "import U.*; actor A () ==> : end"),
            ("U.cal", "unit U : end end"),
        ],
        "A.cal U.cal | G1 in 2 at 13 | A.cal U.cal",
    ),
    // A file is refused before what it asks for is read.
    (
        "A.cal",
        &[
            ("A.cal", "import U.*; import V.*; actor A () ==> : end"),
            ("U.cal", "import W.*; unit"),
            ("V.cal", "$"),
        ],
        "A.cal U.cal | G1 in 2 at 16 | A.cal U.cal",
    ),
];

/// Rows with the number of the read that fails.
const FAILING: &[(u64, Row)] = &[
    (
        1,
        ("A.cal", &[("A.cal", "$")], "A.cal | read fault 1 | A.cal"),
    ),
    (
        2,
        (
            "A.cal",
            &[("A.cal", "import p.U.*; actor A () ==> : end")],
            "A.cal p/U.cal | read fault 2 | A.cal p/U.cal",
        ),
    ),
];

/// A library of the files of a row.
fn held(rt: &impl Abort, a: Global, files: Files, failing: u64) -> Logged {
    library(a, files, failing)
        .expect(rt, "memory")
        .expect(rt, "names that differ")
}

/// What a row answers.
fn answer(rt: &impl Abort, a: Global, top: &str, files: Files, failing: u64) -> String {
    let mut library = held(rt, a, files, failing);
    let class = class_of(a, top).expect(rt, "a class");
    let mut names = Names::new(a);
    let fault = load(a, &mut library, class.as_str(), &mut names).err();
    let ended = outcome(a, fault).expect(rt, "a text");
    told(a, library.asked.as_str(), ended.as_str(), &names).expect(rt, "a text")
}

/// Stops at a row whose answer is another.
fn hold(rt: &impl Abort, a: Global, row: Row, failing: u64) {
    let (top, files, want) = row;
    let found = answer(rt, a, top, files, failing);
    let holds = found.as_str() == want;
    assert!(rt; holds, "{want} is wanted, and {found} is given");
}

#[test]
fn files_that_are_read(rt: HostRuntime) {
    for &row in LOADED {
        hold(&rt, rt.alloc(), row, 0);
    }
}

#[test]
fn files_that_are_refused(rt: HostRuntime) {
    for &row in REFUSED {
        hold(&rt, rt.alloc(), row, 0);
    }
}

#[test]
fn reads_that_fail(rt: HostRuntime) {
    for &(failing, row) in FAILING {
        hold(&rt, rt.alloc(), row, failing);
    }
}

/// How the reading of an actor ended: its class, and how many declarations of other files there are.
fn actor(rt: &impl Abort, a: Global, top: &str, files: Files) -> String {
    let mut library = held(rt, a, files, 0);
    let class = class_of(a, top).expect(rt, "a class");
    let mut names = Names::new(a);
    let found = match read_actor(a, &mut library, class.as_str(), &mut names) {
        Ok(scope) => {
            let (class, file, vars) = (scope.class.as_str(), scope.file, scope.vars.len());
            format!(in a; "{class} in {file} with {vars}")
        }
        Err(fault) => outcome(a, Some(fault)),
    };
    found.expect(rt, "a text")
}

const ACTORS: &[Row] = &[
    (
        "p/A.cal",
        &[
            (
                "p/A.cal",
                "package p; import U.n; actor A () ==> : int x = n; end",
            ),
            ("U.cal", "unit U : int n = 1; int m = 2; end"),
        ],
        "p.A in 1 with 2",
    ),
    (
        "A.cal",
        &[("A.cal", "actor A () ==> : int x = n; end")],
        "S1 in 1 at 25",
    ),
    (
        "A.cal",
        &[
            ("A.cal", "import U.n; actor A () ==> : end"),
            ("U.cal", "package p; unit U : int n = 1; end"),
        ],
        "S5 in 2 at 0",
    ),
    ("A.cal", &[], "N1 in 0 at 0"),
];

#[test]
fn actors_with_their_imports(rt: HostRuntime) {
    for &(top, files, want) in ACTORS {
        let found = actor(&rt, rt.alloc(), top, files);
        let holds = found.as_str() == want;
        assert!(&rt; holds, "{want} is wanted, and {found} is given");
    }
}
