//! Networks told as text: their actors, what is given to these, their links, or a broken rule.
//!
//! What networks as text come to, for rows of them: their actors with what is given to these, their links, or a rule
//! that they break with its place.
//!
//! They go the whole way from bytes to a flat network: `fnl_read`, `fnl_bind`, `fnl_walk` and `fnl_flatten`. What owns
//! the types of all these is here, so that most rows own texts alone.
#![tactic(auto)]

mod asked;
mod told;

pub use asked::{add, answer, cut, read};
pub use told::Told;
