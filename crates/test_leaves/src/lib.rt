//! Rows of leaves with the places of their actors, or the rule that one of them breaks.
//!
//! The files of the rows are text, so they need the lexer and the parser; `check_leaves` stands below these.
#![tactic(auto)]

#[cfg(test)]
mod rows;
