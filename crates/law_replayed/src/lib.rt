//! What a run wrote can be replayed.
//!
//! A command that runs a network to its end leaves a trace. A command that replays that trace over the same network, the
//! same bytes of the inputs and the same limit of growth never answers that it is the trace of no run
//! ([`written_traces_are_replayed`]), if it isn't longer than a trace may be. `specs/Replayed.antt` has the statement.
#![tactic(auto)]

mod laws;

pub use laws::written_traces_are_replayed;
