//! Rows of networks with their links, or the rule that their connections break.
//!
//! Tests that stand beside a crate make it be proved twice. So those that ask public calls alone are here, above the
//! crate that they ask: `fnl_flatten`. A tree that is written by hand is flattened only if [`is_whole`] says so, and one
//! that binding gave if [`heads_fit`] does.
#![tactic(auto)]

mod heads;
mod nets;
#[cfg(test)]
mod networks;
mod told;
mod walk;
mod whole;

pub use whole::{heads_fit, is_whole};
