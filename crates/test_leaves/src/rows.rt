//! Rows of leaves.

use kit_leaves::{Given, answer};

/// An actor with a parameter, and one that imports a constant and has no parameter.
const FILES: &[(&str, &str)] = &[
    (
        "A",
        "actor A (int(size=16) n) int(size=16) In ==> int(size=16) Out : action In:[x] ==> Out:[x + n] end end",
    ),
    (
        "p.B",
        "package p; import p.U.*; actor B () int(size=8) In ==> int(size=8) Out : action In:[x, y] ==> Out:[k] end end",
    ),
    ("p.U", "package p; unit U : int(size=8) k = 3; end"),
];

const ROWS: &[(&[Given], &str)] = &[
    (&[], ""),
    // One actor for one class and its values.
    (
        &[
            ("A", &[("n", 1)]),
            ("A", &[("n", 2)]),
            ("A", &[("n", 1)]),
            ("A", &[("n", 2)]),
        ],
        " 0 1 0 1",
    ),
    (
        &[
            ("p.B", &[]),
            ("A", &[("n", 1)]),
            ("p.B", &[]),
            ("A", &[("n", 1)]),
        ],
        " 0 1 0 1",
    ),
    // The first leaf that is no actor.
    (
        &[("A", &[("n", 1)]), ("A", &[]), ("A", &[("m", 1)])],
        "N2 in 2 at 1",
    ),
    (
        &[("A", &[("n", 1)]), ("A", &[("n", 1), ("m", 1)])],
        "N2 in 1 at 1",
    ),
    (&[("No", &[])], "S3 in 0 at 0"),
    (&[("p.U", &[])], "S5 in 1 at 0"),
];

#[test]
fn leaves_have_their_actors(rt: HostRuntime) {
    let a = rt.alloc();
    for &(given, want) in ROWS {
        let found = answer(a, FILES, given).expect(&rt, "an answer");
        let holds = found.as_str() == want;
        assert!(rt; holds, "{want} is {found}");
    }
}
