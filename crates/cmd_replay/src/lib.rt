//! The verb `replay`: a recorded trace is judged over the network of a library.
//!
//! [`replay_job`] goes from the files of a top and a trace to a report. It compiles the network (`rvc_engine`), matches the
//! port words with its inputs, opens the feeds of the trace and of the inputs, makes cells (`net_cells`), replays the
//! trace over them (`trace_replay`) and puts the report (`cmd_report`). It opens and writes no channel but that of the
//! report.
//!
//! What it promises is said of the source network alone: `specs/Replays.antt` says by what a trace is judged, and
//! `specs/Ends.antt` to what a command comes and what it leaves, with a case for each status. Networks that are alike have
//! the same traces (`law_alike`), so what is told of cells holds of their sources (`proofs/Sourced.antt`).
#![tactic(auto)]

mod image;
mod naming;
mod outcome;
mod preparing;
mod replaying;
mod reporting;
mod states;
mod status;
mod verb;

pub use verb::replay_job;
