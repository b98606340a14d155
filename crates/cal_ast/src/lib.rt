//! The trees of the language: files, members, types, statements and expressions.
//!
//! Each part carries `at`, the offset of its first byte in the text it was read from.
#![tactic(auto)]

mod action;
mod expr;
mod file;
mod ident;
mod member;
mod part;
mod stmt;

pub use action::{Action, Move, Output, Pattern, Priority, Schedule};
pub use expr::{BinOp, Expr, ExprForm, Gen, PrefixOp, TypeArg, TypeExpr};
pub use file::{Actor, Body, File, Import, UnitFile};
pub use ident::{Ident, Tag};
pub use member::{Function, Member, Param, PortDecl, Procedure, VarDecl};
pub use stmt::{Stmt, StmtForm};
