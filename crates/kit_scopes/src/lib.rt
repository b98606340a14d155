//! What rows of scope are made of: tables, names to use, and answers as text.
//!
//! Tables that are one text each, names for them to use, and answers as text.
//!
//! The tests are those of `test_scope`, which stand on this. What owns trees is here, so that the rows own texts alone.
#![tactic(auto)]

mod asked;
mod declared;
mod expressions;
mod faults;
mod files;
mod imported;
mod members;
mod names;
mod table;

pub use asked::{Asked, told};
pub use faults::fault_shown;
pub use imported::{file_told, scope_told};
pub use names::names_of;
pub use table::{answered, cut, role_of};
