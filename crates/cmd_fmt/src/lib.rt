//! The verb `fmt`: the canonical text of a file.
//!
//! [`format_job`] reads the file that a job names, and writes on channel 0 the canonical text of the tree that its text
//! spells, and nothing else; or it puts a report there that says why not. It opens nothing.
//!
//! `specs/Formatting.antt` says what is printed and what refuses a file, `specs/Reports.antt` what a report leaves.
#![tactic(auto)]

mod printing;
mod reading;
mod reporting;
mod verb;

pub use verb::format_job;
