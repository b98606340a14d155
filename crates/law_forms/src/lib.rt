//! Nothing is left out of an expression that has a kind.
//!
//! What is left out of an expression (`left_out_fill` of [`lower_base`]) is said of any tree. Here it is shown that it is
//! nothing if the expression has a kind, its sizes and bounds are written out, and the code has its names and functions: so
//! code can be made of each expression of a sound actor.
#![tactic(auto)]

mod laws;

pub use laws::{nothing_is_left_out, truths_are_seen, types_are_seen};
