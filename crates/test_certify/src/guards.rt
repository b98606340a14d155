//! Guards by themselves.

use crate::answers::answer;
use kit_actors::Takes;

/// What the action takes, its guard, and the answer. Another action without a guard is below it, and takes the same.
const GUARDS: &[(Takes, &str, &str)] = &[
    (Takes::One, "true", "certified"),
    (Takes::One, "v < 7", "certified"),
    // products that may be too great
    (Takes::One, "v * 18446744073709551616 = 0", "0 0 0 C4"),
    (Takes::One, "v * 9223372036854775808 = 0", "certified"),
    (Takes::One, "v * v = 0", "0 0 0 C4"),
    // divisors that may be 0
    (Takes::One, "v / 0 = 0", "0 0 0 C4"),
    (Takes::One, "v / 3 = 0", "certified"),
    (Takes::Two, "v / d = 1", "0 0 0 C4"),
    (Takes::Two, "v mod d = 1", "0 0 0 C4"),
    (Takes::Two, "d != 0 and v / d = 1", "0 0 0 C4"),
    (Takes::Two, "v / (d + 1) = 1", "certified"),
    (Takes::One, "v mod (s + 1) = 0", "certified"),
    (Takes::One, "v mod (s - 1) = 0", "0 0 0 C4"),
    // counts of shifts
    (Takes::One, "v >> 127 = 0", "certified"),
    (Takes::One, "v >> 128 = 0", "0 0 0 C4"),
    (Takes::One, "v >> -s = 0", "0 0 0 C4"),
    (Takes::One, "v << 1 = 0", "0 0 0 C4"),
    // places in a list of four
    (Takes::Four, "t[3] = 0", "certified"),
    (Takes::Four, "t[4] = 0", "0 0 0 C4"),
    (Takes::Four, "t[s + 2] = 0", "certified"),
    (Takes::Four, "t[s + 3] = 0", "0 0 0 C4"),
    (Takes::Four, "t[1 - s] = 0", "certified"),
    (Takes::Four, "t[s - 1] = 0", "0 0 0 C4"),
    (
        Takes::Four,
        "t[if s = 0 then 1 else 3 end] = 0",
        "certified",
    ),
    (Takes::Four, "t[if s = 0 then 4 else 3 end] = 0", "0 0 0 C4"),
    (Takes::Four, "t[~s] = 0", "0 0 0 C4"),
    (Takes::Four, "t[t[0]] = 0", "0 0 0 C4"),
    // calls, which go before traps
    (Takes::One, "f()", "0 0 0 C3"),
    (Takes::One, "v / 0 = 0 and not f()", "0 0 0 C3"),
    (
        Takes::Four,
        "if f() then t[0] = 0 else true end",
        "0 0 0 C3",
    ),
];

#[test]
fn guards(rt: HostRuntime) {
    for &(takes, text, want) in GUARDS {
        let found = answer(rt.alloc(), (takes, text), (takes, "true"), true);
        let found = found.expect(&rt, "an answer");
        assert!(rt; found.as_str() == want, "{text} gives {found}");
    }
}
