//! Files in memory that keep the names that were asked for, and how a loading of them ended, as text.
//!
//! The tests are those of `test_load` and `test_load`, which stand on this so that what they share is proved once.
#![tactic(auto)]

mod answers;
mod files;
mod logged;

pub use answers::{outcome, told};
pub use files::{Files, library};
pub use logged::Logged;
