//! Rows of commands as text, and what they are run on: a library, feeds and channels in memory.
//!
//! The tests are those of a crate above, which is proved over what was proved here.
#![tactic(auto)]

mod files;
mod objects;
mod rows;
mod texts;

pub use objects::{Unmade, drains, feeds, library};
pub use rows::Row;
pub use texts::{begins, cut, left, words};
