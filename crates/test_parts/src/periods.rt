//! Orders of one period, and their peaks.

use crate::balances::links_of;
use balanced_rates::{RatedLink, are_among};
use period_order::{Period, PeriodFault, find_period};
use std::alloc::{AllocError, Global};
use std::test::Fail;

/// For each row the links (writer, reader, how many tokens are given and needed), how often each leaf fires, and the
/// answer: the leaves in order and the peaks, or the blocked leaf.
const ROWS: &[(&[(u32, u32, u32, u32)], &[u32], &str)] = &[
    (&[], &[1], " 0 |"),
    (&[], &[2, 1], " 0 0 1 |"),
    (&[(0, 1, 3, 2)], &[2, 3], " 0 0 1 1 1 | 6"),
    (&[(1, 0, 3, 2)], &[3, 2], " 1 0 1 0 0 | 4"),
    (
        &[(0, 1, 3, 2), (2, 3, 1, 1)],
        &[2, 3, 1, 1],
        " 0 0 1 1 1 2 3 | 6 1",
    ),
    (&[(0, 1, 0, 0)], &[1, 1], " 0 1 | 0"),
    (&[(0, 1, 2, 1)], &[1, 1], " 0 1 | 2"),
    (&[(0, 1, 1, 2)], &[1, 1], "blocked 1"),
    (
        &[(1, 2, 1, 1), (2, 1, 1, 1), (2, 0, 1, 1)],
        &[1, 1, 1],
        "blocked 0",
    ),
    (&[(0, 0, 1, 1)], &[1], "blocked 0"),
    (&[(1, 1, 1, 1)], &[1, 1], "blocked 1"),
    (
        &[(2, 1, 2, 1), (1, 0, 1, 4)],
        &[1, 4, 2],
        " 2 1 1 2 1 1 0 | 2 4",
    ),
];

/// The order and the peaks.
fn text_of(alloc: Global, found: &Period) -> Result<String, AllocError> {
    let mut text = String::new(alloc);
    for leaf in &found.order {
        let part = format!(in alloc; " {leaf}")?;
        text.push_str(part.as_str())?;
    }
    text.push_str(" |")?;
    for peak in &found.peaks {
        let part = format!(in alloc; " {peak}")?;
        text.push_str(part.as_str())?;
    }
    Ok(text)
}

/// The answer to links between leaves that fire so often.
fn answer(alloc: Global, links: &[RatedLink], firings: &[u32]) -> Result<String, AllocError> {
    if firings.len() > 1_000_000 || !are_among(links, firings.len()) {
        return format!(in alloc; "no such leaf");
    }
    match find_period(alloc, links, firings) {
        Ok(found) => text_of(alloc, &found),
        Err(PeriodFault::Blocked { leaf }) => format!(in alloc; "blocked {leaf}"),
        Err(PeriodFault::Memory) => format!(in alloc; "out of memory"),
    }
}

#[test]
fn the_least_leaf_that_may_fire_takes_its_turn(rt: HostRuntime) -> Result<(), Fail> {
    for &(numbers, firings, want) in ROWS {
        let links = links_of(rt.alloc(), numbers)?;
        let found = answer(rt.alloc(), &links, firings)?;
        assert_eq!(rt; found.as_str(), want);
    }
    Ok(())
}
