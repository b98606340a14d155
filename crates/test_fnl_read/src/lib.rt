//! Rows of network files with their tags, the network that they spell, or the rule that they break.
//!
//! Rows of text of network files with their answers: the tags of a text, the network that it spells, or the rule that
//! it breaks first, with its place.
//!
//! Tests that stand beside a crate make it be proved twice. So those that ask public calls alone are here, above the
//! crates that they ask: `fnl_markup` and `fnl_read`.
#![tactic(auto)]

#[cfg(test)]
mod markup;
#[cfg(test)]
mod rows;
