//! What the verbs share that are about the network of a library.
//!
//! What a command met, which network it is about, and how it is answered.
//!
//! `specs/Commands.antt` says what a command is, which network and which run it is about, and what its report speaks
//! of. `specs/Answers.antt` says how it is answered, whatever its verb comes to, and what refuses its files and its
//! words. Each verb says in a crate of its own to what it comes with each status.
//!
//! [`files_subject`] is what a report speaks of that knows no network, [`report_unbuilt`] puts such a report,
//! [`status_of_build`] and [`answered`] give statuses, and [`count_none`] counts certified actors.
//! [`conforming_jobs_are_not_refused`] is what the verbs' completeness rests on.
#![tactic(auto)]

mod counting;
mod laws;
mod one_network;
mod reporting;
mod status;

pub use counting::count_none;
pub use laws::conforming_jobs_are_not_refused;
pub use one_network::one_network_conforms;
pub use reporting::{files_subject, report_unbuilt};
pub use status::{answered, status_of_build};
