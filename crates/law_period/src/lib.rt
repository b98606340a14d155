//! A period of a network of static actors is a run.
//!
//! The actors of a network are static if in each of their states they fire once they have their tokens, and always take
//! and give the same numbers. Then the order in which leaves take their turns can be found before anything runs
//! (`balanced_rates`, `period_order`), and what that order promises comes true in the network: its turns, with all that
//! they give arriving behind each, are a run of it, no inner link ever holds more than its peak, and at the end the
//! inner links are empty again ([`periods_are_runs`]). The laws of vectors and of blocked networks stand beside it
//! (Lee and Messerschmitt, "Synchronous Data Flow", 1987).
#![tactic(auto)]

mod laws;
mod runs;

pub use laws::{blocked_has_no_period, vectors_are_multiples};
pub use runs::{StaticStates, periods_are_runs};
