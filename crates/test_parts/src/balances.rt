//! Repetition vectors of rated links.

use balanced_rates::{BalanceFault, RatedLink, are_among, repetition};
use std::alloc::{AllocError, Global};
use std::test::Fail;

/// The most firings of one period.
const LONGEST: u32 = 16_777_216;

/// For each row the number of leaves, the links (writer, reader, how many tokens are given and needed), and the answer.
const ROWS: &[(usize, &[(u32, u32, u32, u32)], &str)] = &[
    (3, &[], " 1 1 1"),
    (2, &[(0, 1, 3, 2)], " 2 3"),
    (2, &[(1, 0, 3, 2)], " 3 2"),
    (2, &[(0, 1, 6, 4), (1, 0, 2, 3)], " 2 3"),
    (4, &[(0, 1, 3, 2), (2, 3, 1, 1)], " 2 3 1 1"),
    (
        4,
        &[(0, 1, 3, 2), (2, 3, 5, 7), (1, 2, 1, 14)],
        " 196 294 21 15",
    ),
    (2, &[(0, 1, 1, 1), (0, 1, 0, 0)], " 1 1"),
    (2, &[(0, 1, 1, 1), (0, 1, 0, 1)], "unbalanced 1"),
    (2, &[(0, 1, 2, 0)], "unbalanced 0"),
    (1, &[(0, 0, 1, 1)], " 1"),
    (1, &[(0, 0, 1, 2)], "unbalanced 0"),
    (3, &[(0, 1, 4095, 1), (1, 2, 4096, 1)], " 1 4095 16773120"),
    (3, &[(0, 1, 4096, 1), (1, 2, 4095, 1)], "too long"),
    (
        3,
        &[(0, 1, 4096, 1), (1, 2, 4096, 1), (0, 1, 1, 1)],
        "too long",
    ),
    (
        3,
        &[(0, 1, 4096, 1), (0, 1, 1, 1), (1, 2, 4096, 1)],
        "unbalanced 1",
    ),
    (3, &[(0, 1, 4_294_967_295, 4_294_967_294)], "too long"),
    (2, &[(0, 1, 4_294_967_295, 4_294_967_295)], " 1 1"),
];

/// Links of those numbers.
pub(crate) fn links_of(
    alloc: Global,
    numbers: &[(u32, u32, u32, u32)],
) -> Result<Vec<RatedLink>, AllocError> {
    let mut links = Vec::new(alloc);
    for &(writer, reader, give, need) in numbers {
        links.push(RatedLink {
            writer,
            reader,
            give,
            need,
        })?;
    }
    Ok(links)
}

/// The numbers, each behind a blank.
fn text_of(alloc: Global, numbers: &[u32]) -> Result<String, AllocError> {
    let mut text = String::new(alloc);
    for number in numbers {
        let part = format!(in alloc; " {number}")?;
        text.push_str(part.as_str())?;
    }
    Ok(text)
}

/// The answer to links between so many leaves.
fn answer(alloc: Global, leaves: usize, links: &[RatedLink]) -> Result<String, AllocError> {
    if !are_among(links, leaves) {
        return format!(in alloc; "no such leaf");
    }
    match repetition(alloc, leaves, links, LONGEST) {
        Ok(firings) => text_of(alloc, &firings),
        Err(BalanceFault::Unbalanced { link }) => format!(in alloc; "unbalanced {link}"),
        Err(BalanceFault::TooLong) => format!(in alloc; "too long"),
        Err(BalanceFault::Memory) => format!(in alloc; "out of memory"),
    }
}

#[test]
fn the_least_vector_balances_the_links(rt: HostRuntime) -> Result<(), Fail> {
    for &(leaves, numbers, want) in ROWS {
        let links = links_of(rt.alloc(), numbers)?;
        let found = answer(rt.alloc(), leaves, &links)?;
        assert_eq!(rt; found.as_str(), want);
    }
    Ok(())
}
