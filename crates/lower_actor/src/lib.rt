//! Actors as code: from a sound actor to a lowered one that stands for it.
//!
//! [`lower`] puts together what the crates below make of the parts of an actor: the routines of its functions
//! (`expr_lower`) and its procedures (`lower_stmt`), each behind those that it calls, the code of the guards and the firing
//! of each action (`action_lower`), the tables of its schedule, its priorities and its rates (`lower_tables`), and the
//! numbers that its state cells hold at first. What comes out behaves as the source does, as networks see it.
#![tactic(auto)]

mod actions;
mod actor;
mod call_exprs;
mod call_stmts;
mod calls;
mod code;
mod fault;
mod firings;
mod functions;
pub mod laws;
mod made;
mod order;
mod procedures;
mod routines;
mod sends;

pub use actor::lower;
