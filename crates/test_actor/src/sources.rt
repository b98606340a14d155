//! Sources as text, and what the cells of their actors do with tokens.

use kit_built::{code_of, fire};
use std::alloc::Global;
use std::process::Abort;

/// What comes before a mark, and what comes behind it.
fn cut<'a>(text: &'a str, mark: &str) -> (&'a str, &'a str) {
    text.split_once(mark).unwrap_or((text, ""))
}

/// What the cell of a source's actor does with tokens; those of two ports have a semicolon between them.
fn answer(rt: &impl Abort, alloc: Global, source: &str, tokens: &str) -> String {
    match code_of(alloc, source).expect(rt, "an actor") {
        None => String::from_str(alloc, "is refused").expect(rt, "a text"),
        Some(code) => fire(alloc, code, tokens).expect(rt, "a text"),
    }
}

/// Stops unless the cell of a row does what is told.
fn hold_row(rt: &impl Abort, alloc: Global, row: &str) {
    let (_, row) = cut(row, "\n");
    let (source, rest) = cut(row, "\n> ");
    let (tokens, want) = cut(rest, "\n= ");
    let found = answer(rt, alloc, source, tokens);
    assert!(rt; found.as_str() == want, "{source}: {found}");
}

/// Stops unless all cells do what is told. A table is one text: each row begins with `# ` and what it shows, and has a
/// source, a line `> ` with the tokens, and a line `= ` with what comes of them.
pub(crate) fn hold(rt: &impl Abort, alloc: Global, table: &str) {
    for row in table.split("\n# ") {
        if !row.is_empty() {
            hold_row(rt, alloc, row);
        }
    }
}
