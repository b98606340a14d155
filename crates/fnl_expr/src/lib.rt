//! Expressions of network files, from elements and rows of operands.
//!
//! What the attributes of an element give, and how a row of operands and operators is grouped.
//!
//! A text, a literal or an operator is given by attributes. What elements make of them is `fnl_read`'s.
#![tactic(auto)]

mod attributes;
mod kind;
mod leaf;
mod literal;
mod operations;
mod operators;
mod stop;
mod tall;

pub use attributes::{Form, Name, earlier, either_given, given, kind_given, long, text_given};
pub use kind::{ExprKind, is};
pub use leaf::{expr_of_literal, variable};
pub use literal::{Literal, literal_given};
pub use operations::{Pending, before_operator, grouped, list, no_exprs, prefix, with_item};
pub use operators::{binary_given, prefix_given};
pub use stop::{Stop, stuck, too_deep, unknown, wrong};
pub use tall::{MeasuredExpr, MeasuredExprs};
