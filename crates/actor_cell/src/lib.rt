//! Cells: a lowered actor at work, with the queues before its inputs and behind its outputs.
//!
//! A [`Cell`] fires its actions one after another, as the trait `Firing` says: selection runs once a firing, the guards
//! read the tokens where they lie in the queues, and only a firing takes tokens and sends some. All memory is taken
//! by [`Cell::new`].
#![tactic(auto)]

mod acting;
mod cell;
mod firing;
mod limits;
mod making;
mod outbox;
mod rooms;
mod slices;
mod steps;
mod waiting;

pub use cell::Cell;
