//! Whole files, and their copies.

use crate::reading::{fault, parsed};
use crate::writer::text_of;
use cal_ast::{Body, Expr, File};
use rvc_base::Memory;
use std::alloc::Global;

/// What is asked of the file that a text spells.
#[derive(Clone, Copy)]
pub enum Asked {
    File,
    Members,
    /// Whether it is read.
    Outcome,
}

/// What is asked of a file, as text.
fn shown(alloc: Global, asked: Asked, file: &File) -> Result<String, Memory> {
    match asked {
        Asked::File => text_of(alloc, file),
        Asked::Members => match &file.body {
            Body::Actor(actor) => text_of(alloc, &actor.members),
            Body::Unit(_) => Ok(String::from_str(alloc, "a unit")?),
        },
        Asked::Outcome => Ok(String::from_str(alloc, "read")?),
    }
}

/// What is asked of the file that a text spells, or the rule that the text breaks and the place.
///
/// # Errors
///
/// `Memory` if memory runs out.
pub fn told(alloc: Global, asked: Asked, text: &[u8]) -> Result<String, Memory> {
    match parsed(alloc, text) {
        Ok(file) => shown(alloc, asked, &file),
        Err(why) => Ok(fault(alloc, why)?),
    }
}

/// The copy of a file as text.
fn copy_shown(alloc: Global, file: &File) -> Result<String, Memory> {
    let copied = file.copy(alloc)?;
    shown(alloc, Asked::File, &copied)
}

/// Whether the copy of a file is equal to it.
fn has_copy(alloc: Global, file: &File) -> Result<bool, Memory> {
    let whole = shown(alloc, Asked::File, file)?;
    Ok(whole.as_str() == copy_shown(alloc, file)?.as_str())
}

/// An expression as text.
///
/// # Errors
///
/// `Memory` if memory runs out.
pub fn expr_text(alloc: Global, e: &Expr) -> Result<String, Memory> {
    text_of(alloc, e)
}

/// Whether a text spells a file, the copy of which is equal to it.
///
/// # Errors
///
/// `Memory` if memory runs out.
pub fn is_copied(alloc: Global, text: &[u8]) -> Result<bool, Memory> {
    match parsed(alloc, text) {
        Ok(file) => has_copy(alloc, &file),
        Err(_) => Ok(false),
    }
}
