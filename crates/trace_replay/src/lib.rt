//! Replay of recorded traces: whether a text is the trace of a run, else which line isn't.
//!
//! Whether a text is a trace of a run, and if not, which line no run has and why.
//!
//! [`replay`] reads a trace over cells that are ready to be run and what the feeds of their network's inputs have. What
//! a trace is, line by line, is said once for all networks, with the laws of [`traces_are_runs`] and the others.
#![tactic(auto)]

mod between;
mod bytes;
mod came;
mod counting;
mod ending;
mod events;
mod growing;
mod growth;
mod head;
mod holding;
mod last_firing;
mod laws;
mod reading;
mod replayed;
mod replaying;
mod scan;
mod states;
mod trying;
mod why;

pub use bytes::{FIRST_INPUT, TRACE_FEED};
pub use laws::{
    new_cells_begin_at_the_start, no_trace_is_told_once, no_trace_is_told_to_be_none,
    traces_are_runs, what_fails_may_not_come,
};
pub use replayed::Replayed;
pub use replaying::replay;
pub use scan::MAX_TRACE_BYTES;
pub use why::{ReplayFault, Why};
