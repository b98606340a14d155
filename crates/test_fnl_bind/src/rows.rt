//! Rows of networks, which stop where the networks come to something else.

use kit_networks::{Told, answer, cut};
use std::alloc::Global;
use std::process::Abort;

/// Stops unless it is one of those that are allowed, between which ` or ` stands.
pub(crate) fn same(rt: &impl Abort, found: &str, allowed: &str) {
    for told in allowed.split(" or ") {
        if found == told {
            return;
        }
    }
    assert!(rt; found == allowed, "{found}");
}

/// Stops unless the networks of a row come to what is told.
fn hold_row(rt: &impl Abort, alloc: Global, told: Told, row: &str) {
    let (_, row) = cut(row, "\n= ");
    let (allowed, parts) = cut(row, "\nnet ");
    let (nets, actors) = cut(parts, "\nactor ");
    let found = answer(alloc, told, nets, actors).expect(rt, "a text");
    same(rt, found.as_str(), allowed);
}

/// Stops unless all networks come to what is told. A table is one text, since the parts of tables made of slices and pairs
/// are each proved apart. Each row begins with `# ` and what it shows; then come a line `= ` with what the networks come
/// to, a line `net ` for each of them, and a line `actor ` for each actor.
pub(crate) fn hold(rt: &impl Abort, alloc: Global, told: Told, table: &str) {
    for row in table.split("\n# ") {
        if !row.is_empty() {
            hold_row(rt, alloc, told, row);
        }
    }
}
