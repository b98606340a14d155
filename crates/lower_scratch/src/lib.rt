//! Whether code keeps the facts of lowered actors: of any code whose bodies have one end each.
//!
//! A guard or a firing may use cells of its own, but nothing may depend on what they held before. So for each place of a
//! body it is found which of these cells are set there, on each way that leads to it: what one instruction has set stays
//! set. A body keeps the facts if each cell is set where it is read, and none at the begin; besides it reads no token
//! behind those that its action takes, writes no state cell that it may not, and ends as it must. A routine may need
//! cells that are set where it is called, as those of its arguments; it keeps the facts as a part of the bodies that
//! call it.
//!
//! Where that isn't seen, code can clear these cells before anything else. Then nothing depends on what they held, and a
//! body keeps the facts if each of its instructions may stand where it does ([`laws`]).
#![tactic(auto)]

mod bodies;
mod body;
mod edges;
mod finding;
mod instrs;
mod keeping;
pub mod laws;
mod reach;
mod stores;

pub use body::Last;
pub use keeping::keep_facts;
