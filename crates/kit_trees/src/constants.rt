//! Expressions from text, as the value of a constant.

use crate::reading::parsed;
use cal_ast::{Body, Expr, File, Member};
use std::alloc::{AllocError, Global};

/// What stands before an expression in its file, as many bytes as its places are shifted by.
pub const BEFORE: &str = "unit U : int X = ";

/// The start of the first member.
fn start_of(file: &File) -> Option<&Expr> {
    match &file.body {
        Body::Unit(unit) => match unit.members.first() {
            Some(Member::Var(x)) => x.start.as_ref(),
            _ => None,
        },
        Body::Actor(_) => None,
    }
}

/// A copy of that start.
fn copied(alloc: Global, file: &File) -> Result<Option<Expr>, AllocError> {
    match start_of(file) {
        Some(start) => Ok(Some(start.copy(alloc)?)),
        None => Ok(None),
    }
}

/// The expression that a text spells behind [`BEFORE`]; none if it spells none.
///
/// # Errors
///
/// `AllocError` if memory runs out.
pub fn expression(alloc: Global, text: &str) -> Result<Option<Expr>, AllocError> {
    let source = format!(in alloc; "{BEFORE}{text}; end")?;
    match parsed(alloc, source.as_bytes()) {
        Ok(file) => copied(alloc, &file),
        Err(_) => Ok(None),
    }
}
