//! Canonical texts, and trees without their offsets.

use crate::reading::parsed;
use cal_print::print_file;
use rvc_base::Memory;
use std::alloc::Global;

/// The canonical text of the file that a text spells; none if it spells none.
///
/// # Errors
///
/// `Memory` if memory runs out.
pub fn canon(alloc: Global, text: &[u8]) -> Result<Option<Vec<u8>>, Memory> {
    match parsed(alloc, text) {
        Ok(tree) => Ok(Some(print_file(alloc, &tree)?)),
        Err(_) => Ok(None),
    }
}

/// The text of a tree without its offsets.
///
/// # Errors
///
/// `Memory` if memory runs out.
pub fn without_offsets(alloc: Global, shown: &[u8]) -> Result<Vec<u8>, Memory> {
    let mut kept = Vec::new(alloc);
    let mut in_offset = false;
    for &byte in shown {
        in_offset = byte == b'@' || in_offset && byte.is_ascii_digit();
        if !in_offset {
            kept.push(byte)?;
        }
    }
    Ok(kept)
}
