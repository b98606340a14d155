//! The values of a network: of declarations, parameters and sizes of connections.
//!
//! Of its declarations, of what it gives to its instances, and of sizes of connections.
//!
//! [`evaluate`] takes one network where it stands, with the values that its parameters are given, and answers what the
//! walk from the top down needs of it. `fnl_bind` says which rules its values break, and what they are.
#![tactic(auto)]

mod constant;
mod declared;
mod early;
mod ends;
mod fault;
mod given;
mod network;
mod parameters;
mod sizes;
mod start;
mod visits;

pub use network::{NetValues, evaluate};
pub use visits::Visit;
