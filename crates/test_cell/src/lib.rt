//! Rows of cells at work, and of the rooms of their queues.
//!
//! What actors in code fire, send and leave, and the rooms of the queues that cells are made with.
//!
//! The calls are those of `actor_cell` and `net_cells`.
#![tactic(auto)]

#[cfg(test)]
mod actors;
#[cfg(test)]
mod rooms;
#[cfg(test)]
mod working;
