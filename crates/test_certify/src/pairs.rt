//! Pairs of actions.

use crate::answers::answer;
use kit_actors::Takes;

/// Two guards of actions that take the same token, and whether they exclude each other.
const GUARDS: &[(&str, &str, bool)] = &[
    ("v < 10", "v >= 10", true),
    ("v < 10", "v >= 9", false),
    ("v < 10", "v > 9", true),
    ("v < 10", "v > 8", false),
    ("v < 10", "v = 10", true),
    ("v < 10", "v = 9", false),
    ("v < 10", "v != 9", false),
    ("v < 10", "v < 3", false),
    ("v = 3", "v != 3", true),
    ("v <= 3", "v >= 3", false),
    ("s > -1", "s <= -1", true),
    // `not` before the same
    ("v = 1", "not (v = 1)", true),
    ("v = 1", "not (v = 2)", false),
    ("v = 1 and s = 0", "v = 2 or not (v = 1)", false),
    // conjuncts
    ("v = 1 and s = 0", "s = 1 and v = 1", true),
    ("s = 0 and not (v > s)", "v = 1 and v > s", true),
    // the same text, and not the same number
    ("s + 1 = 1", "1 + s = 2", false),
    ("s + 1 = 1", "s + 1 = 2", true),
];

#[test]
fn guards_of_one_token(rt: HostRuntime) {
    for &(one, two, apart) in GUARDS {
        let want = if apart { "certified" } else { "0 0 1 C2" };
        let found = answer(rt.alloc(), (Takes::One, one), (Takes::One, two), false);
        let found = found.expect(&rt, "an answer");
        assert!(rt; found.as_str() == want, "{one} and {two} give {found}");
        let found = answer(rt.alloc(), (Takes::One, two), (Takes::One, one), false);
        let found = found.expect(&rt, "an answer");
        assert!(rt; found.as_str() == want, "{two} and {one} give {found}");
    }
}

/// What two actions take, their guards, whether the first is above the second, and the answer.
const TAKING: &[(Takes, &str, Takes, &str, bool, &str)] = &[
    // the higher one needs more, or doesn't
    (Takes::Two, "true", Takes::One, "true", true, "0 0 1 C1"),
    (Takes::Two, "true", Takes::One, "true", false, "0 0 1 C2"),
    (Takes::One, "true", Takes::Two, "true", true, "certified"),
    (Takes::One, "true", Takes::One, "true", true, "certified"),
    (Takes::One, "true", Takes::Four, "true", true, "certified"),
    (Takes::Four, "true", Takes::Two, "true", true, "0 0 1 C1"),
    (Takes::One, "true", Takes::Other, "true", true, "0 0 1 C1"),
    // a variable decides, or doesn't
    (
        Takes::One,
        "s = 0",
        Takes::Other,
        "s = 1",
        false,
        "certified",
    ),
    (
        Takes::One,
        "s = 0",
        Takes::Other,
        "s = 0",
        false,
        "0 0 1 C2",
    ),
    (Takes::Two, "s = 0", Takes::One, "s = 1", true, "certified"),
    // tokens of one port, and of two
    (Takes::Two, "v = 0", Takes::One, "v = 1", false, "certified"),
    (Takes::Two, "d = 0", Takes::One, "v = 1", false, "0 0 1 C2"),
    (
        Takes::One,
        "v = 0",
        Takes::Other,
        "v = 1",
        false,
        "0 0 1 C2",
    ),
    (
        Takes::Four,
        "t[0] = 0",
        Takes::Four,
        "t[0] = 1",
        false,
        "certified",
    ),
    (
        Takes::Four,
        "t[0] = 0",
        Takes::Four,
        "t[1] = 1",
        false,
        "0 0 1 C2",
    ),
    (
        Takes::Four,
        "t[0] = 0",
        Takes::One,
        "v = 1",
        false,
        "0 0 1 C2",
    ),
    // guards are judged before pairs
    (
        Takes::One,
        "true",
        Takes::One,
        "v / 0 = 1",
        false,
        "0 1 1 C4",
    ),
    (
        Takes::One,
        "v / 0 = 1",
        Takes::One,
        "f()",
        false,
        "0 0 0 C4",
    ),
];

#[test]
fn tokens(rt: HostRuntime) {
    for &(first, one, second, two, ranked, want) in TAKING {
        let found = answer(rt.alloc(), (first, one), (second, two), ranked);
        let found = found.expect(&rt, "an answer");
        assert!(rt;
            found.as_str() == want,
            "{first:?} {one} and {second:?} {two} give {found}"
        );
    }
}
