//! Rows of traces, whole, cut and changed, with what a replay answers.
//!
//! Rows of traces that are replayed: what small networks answer to whole, cut and changed traces, over the public call
//! of `trace_replay`.
//!
//! The cells and their wiring are ready to be run (`ready_cells` of `kit_runs`), and so they can replay a trace
//! ([`replay_network`]) over feeds such as those of [`replay_feeds`].
#![tactic(auto)]

mod feeds;
mod replaying;

pub use feeds::replay_feeds;
pub use replaying::replay_network;

#[cfg(test)]
mod changes;
#[cfg(test)]
mod numbers;
#[cfg(test)]
mod paths;
#[cfg(test)]
mod replays;
#[cfg(test)]
mod rows;
