//! Tables that are one text each, since the slices and pairs of other tables are each proved apart.
//!
//! Each row begins with a line feed, `# ` and what is asked; then come a line feed, `= ` and the answer.

/// A text, cut at the first of a mark.
pub(crate) fn cut<'a>(text: &'a str, mark: &str) -> (&'a str, &'a str) {
    text.split_once(mark).unwrap_or((text, ""))
}

/// What is asked in a row, and the answer.
pub(crate) fn answered(row: &str) -> (&str, &str) {
    cut(row, "\n= ")
}
