//! Rows as text.

use crate::texts::cut;

/// What is run: the words, its own files, the trace under the name `t`, the most bytes that a call moves, and the read of
/// a file, the call to the feeds and the call to the channels that fails, counted from 1; 0 for none.
#[derive(Clone, Copy)]
pub struct Row<'a> {
    pub words: &'a str,
    pub own: &'a str,
    pub trace: &'a str,
    pub step: u32,
    pub read: u64,
    pub feed: u64,
    pub channel: u64,
}

impl<'a> Row<'a> {
    /// The row of a line of words. One that begins with numbers and a colon has its own most bytes of a call, and the
    /// read of a file, the call to the feeds and the call to the channels that fails. ` < ` stands before its trace.
    #[must_use]
    pub fn of_line(line: &'a str, own: &'a str, step: u32) -> Row<'a> {
        let (numbers, command) = line.split_once(": ").unwrap_or(("", line));
        let (words, trace) = cut(command, " < ");
        let (own_step, rest) = cut(numbers, " ");
        let (read, rest) = cut(rest, " ");
        let (feed, channel) = cut(rest, " ");
        Row {
            words,
            own,
            trace,
            step: own_step.parse().unwrap_or(step),
            read: number(read),
            feed: number(feed),
            channel: number(channel),
        }
    }
}

/// A number, or 0.
fn number(text: &str) -> u64 {
    text.parse().unwrap_or(0)
}
