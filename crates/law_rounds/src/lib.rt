//! A run has few rounds.
//!
//! A round may fire nothing. But of two rounds in a row one fires, or a link grows, or the run ends: after a round
//! that fires nothing all leaves are picked, and if then nothing fires either, the run can't go on as it is. So a run
//! has no more rounds than its firings and the growths of its links allow ([`rounds_are_few`]), and a link grows no
//! more than 20 times ([`links_grow_few_times`]); of a given network, then, no more than its firings allow
//! ([`firings_bound_rounds`]).
#![tactic(auto)]

mod laws;

pub use laws::{firings_bound_rounds, links_grow_few_times, rounds_are_few};
