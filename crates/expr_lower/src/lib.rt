//! Code for expressions and functions.
//!
//! Instructions that push the single value, or fill cells with the list, that evaluating an expression gives, and
//! routines that do what calling a function does.
//!
//! It stands on [`lower_base`], which says what such code does, and makes that of expressions without parts. Code is
//! appended to a [`Draft`](lower_base::Draft).
#![tactic(auto)]

mod apart;
mod bounds;
mod counting;
mod exprs;
mod fixed;
mod generators;
mod indexes;
pub mod laws;
mod lists;
mod meanings;
mod routines;
mod sizes;
mod starts;
mod taking;
mod truths;
mod types;

pub use bounds::bound_of;
pub use exprs::{lower, lower_args, lower_calling, lower_expr, lower_test, offset};
pub use lists::{fill, fill_all, lower_list};
pub use meanings::shape_meant;
pub use routines::{lower_function, take_formals};
pub use sizes::alike;
pub use starts::{Row, leaf_of, start, start_list, start_local, take_list};
pub use types::single_meant;
