//! Leaves of networks told as text: the places of their actors, or a broken rule.
//!
//! What leaves of a network come to, for rows of them: the places of their actors, or the rule that one of them breaks.
//!
//! The tests are those of `test_leaves`. Each drop of a type is proved in each crate that owns one, so what owns files
//! and actors is here, and the rows own texts alone.
#![tactic(auto)]

mod answers;
mod files;

pub use answers::{Given, answer};
