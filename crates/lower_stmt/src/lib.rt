//! Code for statements and procedures.
//!
//! Instructions that do what executing statements and calling procedures does.
//!
//! It stands on [`expr_lower`], which makes the code of their expressions and of functions. Code is appended to a
//! [`Draft`](lower_base::Draft), and leaves what the statements leave in the cells of the names.
#![tactic(auto)]

mod callees;
mod counter;
mod deep;
mod jumps;
pub mod laws;
mod lists;
mod procedures;
mod scope;
mod stmts;
mod targets;

pub use callees::ProcCallee;
pub use expr_lower::{Row, start_list, start_local, take_list};
pub use procedures::lower_procedure;
pub use stmts::{lower_calling_stmts, lower_stmts};
