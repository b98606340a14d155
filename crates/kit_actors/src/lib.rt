//! Sound actors for tests.
//!
//! Two whose guards are given, one with a guard, a local, a loop and an output, and one with routines.
//!
//! [`example`] makes an actor of two actions with given guards; it is sound if [`sort_of`] finds that both guards are
//! truth values. [`count`] makes one with a guard, a local, a loop and an output, and [`double`] one with a function, a
//! procedure and a list. That they are sound is proved.
#![tactic(auto)]

mod actors;
mod doubling;
mod guarded;
mod sorting;
mod trees;

pub use actors::count;
pub use doubling::double;
pub use guarded::{Takes, example};
pub use sorting::{Sort, sort_of};
