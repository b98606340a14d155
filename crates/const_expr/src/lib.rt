//! What expressions give, and of which kind they are.
//!
//! `evaluate` is a plain program of the meaning of expressions, `judging` one of their kinds: one small function a
//! form. The names, the values and the kinds that they work on are those of `const_env`.
#![tactic(auto)]

mod constant_value;
mod entry;
mod evaluate;
mod filled;
mod judging;
pub mod scope;
mod shapes;

pub use entry::all_turns;
pub use evaluate::eval;
pub use judging::{arguments_fit, constant_number, kind, type_judged};
pub use shapes::counts;
