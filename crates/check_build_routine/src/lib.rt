//! The functions and procedures of the actor that a source is.
//!
//! Each call gives the part of a [`Bound`](cal_model::Bound) that the definitions in `cal_check` say, over the names
//! that the part sees.
#![tactic(auto)]

mod formal;
mod local;
mod routines;
mod untyped;

pub use formal::{DeclaredFormals, formals, single_type};
pub use local::{DeclaredLocals, locals};
pub use routines::{fun_of, proc_of};
