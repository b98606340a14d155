//! Rows of names: what they stand for, and actors with what their imports lead to.
//!
//! Rows of text with their answers: expressions, types and members with each name written out in full, what names stand
//! for inside scopes, which names files declare, and actors with what their imports lead to; or the rule of scope that
//! is broken.
//!
//! The rows are text, so they need the lexer, the parser and the printer; `cal_scope` and `cal_imports` stand below
//! these.
#![tactic(auto)]

#[cfg(test)]
mod declared;
#[cfg(test)]
mod expressions;
#[cfg(test)]
mod imports;
#[cfg(test)]
mod members;
#[cfg(test)]
mod names;
#[cfg(test)]
mod rows;
