//! Actors built of their source as text, and what their cells do told as text.
//!
//! Actors that are built of their source as text, and their cells over tokens told as text, for tests of what they do.
//!
//! [`code_of`] has `rvc_engine` build the source, from a library in memory that has no other file. [`fire`] lets a cell
//! fire until it waits or traps, and [`fire_twice`] once, and once more after it was cleared. What is told are the
//! actions that fired, the tokens that were sent, how that ended, and how many tokens wait then before the first input
//! port, as `fires 0 1, sends 9 5, waits, 0 left`.
#![tactic(auto)]

mod building;
mod firing;
mod telling;

pub use building::code_of;
pub use firing::{fire, fire_twice};
