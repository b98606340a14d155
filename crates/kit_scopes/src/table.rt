//! Tables that are one text each, since the slices and pairs of other tables are each proved apart.
//!
//! Each row begins with a line feed, `# ` and what is asked; then come a line feed, `= ` and the answer.

use cal_scope::Role;
use rvc_base::Memory;
use std::alloc::Global;

/// A text, cut at the first of a mark.
pub fn cut<'a>(text: &'a str, mark: &str) -> (&'a str, &'a str) {
    text.split_once(mark).unwrap_or((text, ""))
}

/// What is asked in a row, and the answer.
pub fn answered(row: &str) -> (&str, &str) {
    cut(row, "\n= ")
}

/// The role of a word.
pub fn role_of(word: &str) -> Role {
    match word {
        "variable" => Role::Variable,
        "function" => Role::Function,
        _ => Role::Procedure,
    }
}

/// A text without what stands before and behind it; all of it if either doesn't stand there.
pub(crate) fn within(a: Global, text: &str, before: &str, behind: &str) -> Result<String, Memory> {
    let inner = match text.strip_prefix(before) {
        Some(rest) => rest.strip_suffix(behind).unwrap_or(text),
        None => text,
    };
    Ok(String::from_str(a, inner)?)
}
