//! What constant expressions are judged and evaluated over: names with values, and functions.
//!
//! What constant expressions are judged and evaluated over, and what is done with their values and kinds one by one.
//!
//! An environment ([`Env`]) holds constants and functions; [`Names`] are these with what is declared round an
//! expression. Above it the crate `const_expr` goes through expressions, and `const_eval` has what callers use.
#![tactic(auto)]

mod env;
mod fault;
mod held;
pub mod inside;
pub mod kinds;
mod lengths;
mod meant;
mod names;
pub mod operators;
mod places;
pub mod ranges;
mod stop;
pub mod types;
pub mod value;
mod variables;

pub use env::Env;
pub use fault::KindFault;
pub use inside::{Inside, Variable};
pub use lengths::is_counted;
pub use meant::Meant;
pub use names::Names;
pub use stop::EvalError;
pub use variables::Variables;
