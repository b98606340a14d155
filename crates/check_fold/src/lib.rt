//! Expressions, types, variables and statements with their sizes and bounds written out.
//!
//! Each call gives a copy of a part of a source in which each size of a type and each bound of a generator is the number
//! that it has over the names that the part sees, written with numbers and `-` alone. What has no number, since it
//! breaks a rule, stays as it is.
#![tactic(auto)]

mod constant;
mod expression;
mod gens;
mod made;
mod made_stmt;
mod statement;
mod types;
mod var_decl;

pub use expression::{expr, exprs};
pub use statement::{optional_stmts, stmts};
pub use types::type_expr;
pub use var_decl::{DeclaredVars, variable, vars};
