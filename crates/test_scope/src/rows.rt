//! One way from the text of a row to its answer.

use kit_scopes::{Asked, answered, names_of, told};
use std::alloc::Global;
use std::process::Abort;

/// Stops at the first row of a table whose answer is another.
pub(crate) fn hold(rt: &impl Abort, a: Global, asked: Asked, table: &str) {
    let names = names_of(a).expect(rt, "names");
    for row in table.split("\n# ") {
        if !row.is_empty() {
            let (text, want) = answered(row);
            let found = told(a, &names, asked, text).expect(rt, "a text");
            let holds = found.as_str() == want;
            assert!(rt; holds, "{text} gives {found}");
        }
    }
}
