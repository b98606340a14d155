//! The words of a line.

use rvc_base::Rule;

/// A word of a line.
#[derive(Clone, Copy)]
pub(crate) enum Word<'a> {
    Text(&'a [u8]),
    Number(u64),
    OfRule(Rule),
}
