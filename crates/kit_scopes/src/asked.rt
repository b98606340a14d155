//! What is asked of a text, and its answer as text.

use crate::declared::name_told;
use crate::expressions::{expression_told, type_told};
use crate::members::members_told;
use cal_scope::FileNames;
use rvc_base::Memory;
use std::alloc::Global;

/// What a text is read as.
#[derive(Clone, Copy)]
pub enum Asked {
    /// An expression.
    Expression,
    /// A type.
    Type,
    /// The members of an actor.
    Members,
    /// `ROLE NAME in FILE`: a name that a file is to declare itself.
    Declared,
}

/// The text with each name written out in full, or the rule of scope that it breaks with its place.
///
/// # Errors
///
/// `Memory` if memory runs out.
pub fn told(a: Global, names: &FileNames, asked: Asked, text: &str) -> Result<String, Memory> {
    match asked {
        Asked::Expression => expression_told(a, names, text),
        Asked::Type => type_told(a, names, text),
        Asked::Members => members_told(a, names, text),
        Asked::Declared => name_told(a, text),
    }
}
