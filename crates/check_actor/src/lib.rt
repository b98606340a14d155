//! A whole actor, checked: the actor that a scope is over the values of its parameters.
#![tactic(auto)]

mod bodies;
mod built;
mod collect;
mod early;
mod fault;
mod heading;
mod inside;
mod keeping;
mod others;
mod own;
mod routines;
mod said;
mod scalars;
mod sifting;
mod values;
mod whole;

pub use bodies::check_bodies;
pub use built::{functions, procedures};
pub use collect::{declared_before, declared_funs, declared_own, declared_params};
pub use values::value_declared;
pub use whole::check;
