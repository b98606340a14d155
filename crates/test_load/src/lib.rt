//! Rows of files with what a loading reads of them, in which order, or the rule that refuses.
//!
//! Rows of files of actors and networks with what a loading reads of them: which, in which order, and the rule that
//! refuses them.
//!
//! The rows are text, so they need the lexer, the parser and the reader of networks; the calls are those of `cal_files`
//! and `fnl_files`.
#![tactic(auto)]

#[cfg(test)]
mod limits;
#[cfg(test)]
mod networks;
#[cfg(test)]
mod rows;
