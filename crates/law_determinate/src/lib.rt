//! If each actor of a network is certified, its outputs don't depend on the schedule.
//!
//! What one run tells of all others: if each actor of a network is certified, its outputs don't depend on how it is
//! scheduled.
//!
//! A network of certified actors has one result over given inputs, however its rounds, bursts, buffers and workers are
//! chosen (Kahn 1974). [`runs_tell_quiet_runs`] says it of a command that runs a network: every quiet run over the same
//! inputs gives the bytes that the command wrote, or continues them if its run ended otherwise. `specs/QuietRuns.antt`
//! has the statement.
#![tactic(auto)]

mod laws;

pub use laws::runs_tell_quiet_runs;
