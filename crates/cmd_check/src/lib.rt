//! The verb `check`: whether the files of a top conform, and no word names a port.
//!
//! [`check_job`] reads and checks the network that the top names, refuses port words, and puts the report on channel 0. It
//! opens nothing.
//!
//! `specs/Ends.antt` says to what a command comes and what it reports, with a case for each status.
#![tactic(auto)]

mod checking;
mod reporting;
mod verb;

pub use verb::check_job;
