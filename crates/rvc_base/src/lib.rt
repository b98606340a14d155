//! What every crate of `rvc` shares: numbers and their types, the ids of a network, refusals, traps.
//!
//! Each bound that follows from the width of numbers stands once, by name, in `width`.
#![tactic(auto)]

pub mod arithmetic;
mod ids;
mod limits;
mod memory;
mod refusal;
mod round_kind;
mod rules;
mod scalar;
mod trap;
mod turns;
mod width;

pub use ids::{ActId, InstId, LinkId};
pub use limits::MAX_BUDGET;
pub use memory::Memory;
pub use refusal::{Front, Place, Refusal, Rule};
pub use round_kind::RoundKind;
pub use scalar::{Scalar, conv};
pub use trap::Trap;
pub use turns::MAX_TURNS;
pub use width::{DEFAULT_SIZE, MAX_SHIFT, MAX_SIZE, MAX_TOKEN_BYTES, Num};
