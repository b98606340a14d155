//! Tables of commands. Each is one text, since the slices and pairs of another table are each proved apart.
//!
//! A table has parts. Each begins with `# ` and its files, which are `NAME TEXT`, with `+ ` at the start of the line of
//! each further one; `\x7f` in a text stands for the byte 255. Then come its rows, each a line `= ` with what is left
//! (`hold_left`), and the lines of words that leave it. A line that begins with numbers and a colon has its own most bytes
//! of a call, and the read of a file, the call to the feeds and the call to the channels that fails. ` < ` stands before
//! the trace that is under the name `t`, in which `/` ends each line.

use crate::rows::running::hold_left;
use kit_commands::{Row, cut};
use std::alloc::Global;
use std::process::Abort;
use std::thread::Threads;

/// The most bytes of a call: one, a few, and more than a row has.
pub(crate) const STEPS: &[u32] = &[1, 3, 1000];

/// Stops at the first line of a table that leaves something else, by calls of each size.
pub(crate) fn hold<R: Abort + Threads + Sync>(rt: &R, alloc: Global, table: &str, steps: &[u32]) {
    for part in table.split("\n# ") {
        let (files, rows) = cut(part, "\n= ");
        for row in rows.split("\n= ") {
            let (left, lines) = cut(row, "\n");
            for line in lines.lines() {
                for &step in steps {
                    hold_left(rt, alloc, &Row::of_line(line, files, step), left);
                }
            }
        }
    }
}
