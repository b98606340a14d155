//! The order that declared pairs of numbers make, and the line in which they stand.
//!
//! Which number is above which, and the line in which they stand.
//!
//! The numbers are actions, and the pairs the priorities of an actor (CAL Language Report, action-level control
//! structures): the first of a pair is above the second.
#![tactic(auto)]

mod arrange;
mod closing;
mod cycle;
mod order;
mod table;

pub use closing::{OrderFault, close};
pub use order::Order;
