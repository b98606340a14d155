//! The tables of an actor: what a lowered actor has beside its code.
//!
//! They are made from a sound actor alone: the automaton of its schedule, the order of its priorities, the rates of
//! its actions, and which cells of its state may change. A lowered actor with these tables offers the same actions in
//! each state, leads to the same states, tries its actions in the same order and takes and sends as many tokens; so if
//! its guards and its firings do what those of the source do, it behaves as the source (`laws`).
#![tactic(auto)]

mod cells;
pub mod laws;
mod priority;
mod rates;
mod schedule;
mod tables;
#[cfg(test)]
mod tests;

pub use priority::order;
pub use rates::{Rates, action_rates};
pub use schedule::automaton;
pub use tables::{Tables, lower_tables};
