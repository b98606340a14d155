//! The verb `certify`: whether the certification rule holds of each actor of a job.
//!
//! [`certify_job`] reads and checks the network that the top names, refuses port words, judges each actor by the
//! certification rule, and puts the report on channel 0. It opens nothing. A network of certified actors has one result,
//! however it is scheduled (`certified_networks_are_determinate` of [`determinacy_cert`]).
//!
//! `specs/Ends.antt` says to what a command comes and what it reports, with a case for each status.
#![tactic(auto)]

mod certifying;
mod judging;
mod reporting;
mod verb;

pub use verb::certify_job;
