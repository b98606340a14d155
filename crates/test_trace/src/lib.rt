//! Rows of lines of a trace, as they are read and written, over the public calls of `trace_text`.
//!
//! Tests that stand beside a crate make it be proved twice.
#![tactic(auto)]

#[cfg(test)]
mod read;
#[cfg(test)]
mod written;
