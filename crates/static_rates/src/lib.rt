//! Whether an actor is static, and the rates of its firings if it is.
//!
//! An actor is static if it has no `initialize` and no guard, all its actions take and give the same number of tokens
//! on each port, and in each state of its schedule some action is eligible (Lee and Messerschmitt, "Synchronous Data
//! Flow", 1987). Then how many tokens a firing takes and gives depends neither on the tokens nor on the state.
#![tactic(auto)]

mod actions;
mod laws;
mod same;
mod schedule;
mod static_actor;

pub use laws::static_actors_keep_their_rates;
pub use static_actor::{Rates, StaticFault, StaticRule, rates_of};
