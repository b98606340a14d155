//! Rows of constant expressions with their values and kinds.
//!
//! Rows of expressions as text with their answers, over the public calls of `const_eval`: what they give, and of which
//! kind they are. The lexer and the parser read them.
//!
//! Tests that stand beside a crate make it be proved twice.
#![tactic(auto)]

#[cfg(test)]
mod functions;
#[cfg(test)]
mod kinds;
#[cfg(test)]
mod names;
#[cfg(test)]
mod rows;
#[cfg(test)]
mod table;
#[cfg(test)]
mod values;
