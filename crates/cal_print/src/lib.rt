//! The printer: the canonical text of a tree.
//!
//! [`print_file`] prints a whole file. Below it stand the printers of what files hold: names, types, expressions,
//! statements and members, each put behind a text as its tokens. What the tokens of a tree are is `words` of
//! `specs/Tokens.antt`.
#![tactic(auto, using(crate::proofs::Texts::nothing))]

mod action;
pub mod expr;
mod file;
pub mod member;
pub mod name;
mod operators;
pub mod part;
mod stmt;
pub mod writer;

pub use file::print_file;
