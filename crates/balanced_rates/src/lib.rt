//! How often each leaf fires in one period of a network whose rates are fixed.
//!
//! Links are given by their rates: how many tokens a firing of the writing leaf gives, and how many one of the
//! reading leaf needs. A vector of firings balances a link if over all of them as many tokens are given as are
//! needed. [`repetition`] finds the least vector that balances every link (Lee and Messerschmitt, "Synchronous
//! Data Flow", 1987), or the first link that has none.
#![tactic(auto)]

mod fraction;
mod laws;
mod link;
mod split;
mod vector;

pub use laws::{balance_is_linear, one_repetition_vector};
pub use link::RatedLink;
pub use vector::{BalanceFault, are_among, repetition};
