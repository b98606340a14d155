//! Rows of text with tokens, trees, copies of trees and canonical texts.
//!
//! Rows of text with their answers: tokens and trees of texts, copies of trees, and canonical texts, which give the
//! same trees again.
//!
//! Tests that stand beside a crate make it be proved twice. So those that ask public calls alone are here, above the
//! crates that they ask: `cal_lexer`, `cal_ast`, `cal_parser` and `cal_print`.
#![tactic(auto)]

#[cfg(test)]
mod canon_table;
#[cfg(test)]
mod copying;
#[cfg(test)]
mod expression_table;
#[cfg(test)]
mod expressions;
#[cfg(test)]
mod lexing;
#[cfg(test)]
mod parsing;
#[cfg(test)]
mod printing;
#[cfg(test)]
mod table;
