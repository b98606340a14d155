//! Which declarations of other files an actor uses, directly or indirectly.
//!
//! Of the variables and functions to which its imports lead, an actor keeps those that it uses. [`used_names`] finds the
//! names that the actor and what it uses say, and [`keep_vars`] and [`keep_funs`] leave out what isn't kept. What is
//! used is defined in `cal_check` (`Actors`).
#![tactic(auto)]

mod exprs;
mod functions;
mod kept;
mod members;
mod name_set;
mod outer;
mod stmts;
mod used;

pub use functions::add_names_used;
pub use kept::{keep_funs, keep_vars};
pub use name_set::NameSet;
pub use outer::{OuterDecl, OuterForm};
pub use used::{UsedNames, used_names};
