//! The rules that statements and what stands in them break.
//!
//! Each call judges a part over the names that it sees. It answers Ok exactly if the part breaks no rule, and else one
//! that it breaks, with its place. Some are told whether they pass over what isn't constant: then they answer Ok exactly
//! if the part breaks no other rule.
#![tactic(auto)]

mod assign;
mod inner_vars;
mod part;
mod proc_call;
mod procs;
mod stmt;

pub use assign::kinds;
pub use inner_vars::{check_vars, vars};
pub use part::{check_stored, is_passed, passed, stored, test};
pub use procs::Procs;
pub use stmt::{block, optional_stmts, stmts};
