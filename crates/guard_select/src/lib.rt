//! Selection: which action of a lowered actor is to fire.
//!
//! Of the actions that are eligible in the state, those that have their tokens are asked in the order of the line, and
//! the first whose guards aren't false is chosen. Guards run as code, on the tokens where they lie: nothing is copied
//! and no memory is taken.
#![tactic(auto)]

mod choosing;
mod exposing;
mod guards;
mod rates;
mod taken;

pub use choosing::{Choice, select};
pub use exposing::is_exposed;
pub use guards::{Ready, readiness};
pub use taken::Taken;
