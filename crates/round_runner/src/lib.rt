//! The rounds of a network: deliver, pick, fire, until an end.
//!
//! This crate has the parts of a round; `network_runner` joins them.
#![tactic(auto)]

mod bursting;
mod choosing;
mod limits;
mod noting;
mod outcome;
mod sending;

pub use bursting::burst_each;
pub use choosing::{choose, count_marks};
pub use limits::limit_for;
pub use net_state::{Bursts, Crew, Lacking, Trapped};
pub use noting::{note, note_firings};
pub use outcome::{Plan, RoundEnd, RunEnd};
pub use sending::send_along;

/// The channel of the trace.
pub const TRACE_CHANNEL: u32 = 1;

/// The channel of the first output of a network. Those of the others follow in the order of ports.
pub const FIRST_OUTPUT: u32 = 2;

/// The feed of the first input link. Those of the others follow in the order of links.
pub const FIRST_INPUT: u32 = 1;
