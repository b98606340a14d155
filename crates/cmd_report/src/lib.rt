//! How a command ended, and its report on channel 0.
//!
//! [`Status`] names each end with what it is about, and gives the exit status ([`Status::code`]). A report is lines of
//! text: those of a verb, if the command came to its end, and the last line, which tells the status. Each kind of verb has
//! a call: [`report_run`] for those that make or replay a run, [`report_check`], [`report_certify`], and [`report_end`]
//! for a command that ended before it had anything to count. [`Subject`] holds what a report speaks of and the names that
//! it prints for numbers of files and feeds.
//!
//! No memory is taken: a report is put in pieces, as it is written.
#![tactic(auto, using(crate::proofs::Chain::then, crate::proofs::Chain::then_less, crate::proofs::Chain::then_text, crate::proofs::Chain::less_longer, crate::proofs::Chain::nothing))]

mod last_line;
mod lines;
mod names;
mod puts;
mod reports;
mod status;
mod subject;
mod words;

pub use puts::REPORT_CHANNEL;
pub use reports::{report_certify, report_check, report_end, report_run};
pub use status::{ReadAt, Status};
pub use subject::Subject;
