//! Small actors, written in code by hand, for the rows of crates that run actors, and for measurements.
//!
//! [`lowered`] makes the actor of a name. It tests all that its parts are asked, so nothing is trusted of the tables here.
#![tactic(auto)]

mod codes;
mod draft;
mod eligible;
mod lowering;
mod sample;

pub use lowering::lowered;
pub use sample::Sample;
