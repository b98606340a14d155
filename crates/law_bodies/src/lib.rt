//! Nothing is left out of bodies that break no rule.
//!
//! What is left out of a statement, a function, a procedure or an action (`left_out_all` of [`lower_stmt`] and the like) is
//! said of any. Here it is shown that it is nothing if they break no rule, and the code has the names that they see and
//! routines of the functions and procedures that they call.
#![tactic(auto)]

mod laws;

pub use laws::{nothing_is_left_out_of_actions, nothing_is_left_out_of_bodies};
