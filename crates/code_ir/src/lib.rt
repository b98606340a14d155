//! Code of actors: instructions, what they do, and the test before code runs.
//!
//! Instructions, what running them means, and the test that code must pass before it runs.
#![tactic(auto)]

mod admission;
mod admitted;
mod heights;
mod instr;
pub mod laws;
mod lines;
mod outcome;
mod places;
mod reading;
mod sizes;
mod tokens;

pub use admission::admit;
pub use admitted::{Admitted, CodeFault};
pub use instr::{ActorCode, Instr, Routine};
pub use outcome::Outcome;
pub use reading::has_tokens;
pub use sizes::{are_few, are_sized};
pub use tokens::Tokens;
