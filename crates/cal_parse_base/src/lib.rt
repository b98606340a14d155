//! What takes tokens from the front: words, names, operators and open parentheses.
//!
//! Words and names, operators, and the parentheses that open round an expression.
//!
//! `cursor` takes single tokens, and `leading` and `operators` those that stand before a part or an operand. An
//! expression that is read is looked at here (`pairs`), and owned only above. `specs/Tells.antt` says what the answers
//! of all that reads sources say of the rules of `cal_grammar`.
#![tactic(auto)]

pub mod cursor;
mod ends;
pub mod fault;
pub mod leading;
pub mod operators;
pub mod pairs;
pub mod parts;
pub mod tall;
