//! The ends of the interval of an expression. If the least number is taken away from it and then all but one of the
//! numbers below 0, the least number of the language is left, and nothing more may be taken away; and so with the
//! greatest.

use crate::answers::answer;
use kit_actors::Takes;
use rvc_base::{Memory, Num};
use std::alloc::Global;

/// An expression of a token of 64 bits, with the least and the greatest number that it may give.
const ENDS: &[(&str, Num, Num)] = &[
    ("v + 1", 1, 18446744073709551616),
    ("v - 1", -1, 18446744073709551614),
    ("v / 3", 0, 18446744073709551615),
    ("v mod 10", -9, 9),
    ("v >> 127", 0, 18446744073709551615),
    ("s", 0, 1),
    ("-s * 7", -7, 0),
    ("if v < s then s - 3 else -s end", -3, 0),
];

/// Whether the expression without this number has an interval once these are added.
fn fits(a: Global, e: &str, without: Num, added: &str) -> Result<bool, Memory> {
    let text = format!(in a; "({e}) - ({without}) {added} = 0")?;
    let found = answer(a, (Takes::One, text.as_str()), (Takes::One, "true"), true)?;
    Ok(found.as_str() == "certified")
}

/// Whether these are the ends.
fn are_ends(a: Global, e: &str, low: Num, high: Num) -> Result<bool, Memory> {
    let all = format!(in a; "- {} - 1", Num::MAX)?;
    let too_many = format!(in a; "- {} - 2", Num::MAX)?;
    let least = fits(a, e, low, all.as_str())? && !fits(a, e, low, too_many.as_str())?;
    let all = format!(in a; "+ {}", Num::MAX)?;
    let too_many = format!(in a; "+ {} + 1", Num::MAX)?;
    let greatest = fits(a, e, high, all.as_str())? && !fits(a, e, high, too_many.as_str())?;
    Ok(least && greatest)
}

#[test]
fn ends(rt: HostRuntime) {
    for &(e, low, high) in ENDS {
        let holds = are_ends(rt.alloc(), e, low, high).expect(&rt, "an answer");
        assert!(rt; holds, "{e}");
    }
}
