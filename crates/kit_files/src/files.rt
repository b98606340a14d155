//! Libraries of files that are text.

use crate::logged::Logged;
use rvc_io::{MemLibrary, names_are_distinct};
use std::alloc::{AllocError, Global};

/// Files: each a name and its text.
pub type Files = &'static [(&'static str, &'static str)];

/// A library of the files, of whose reads the one of a number fails; none if two of them have one name.
pub fn library(a: Global, files: Files, failing: u64) -> Result<Option<Logged>, AllocError> {
    let mut held = Vec::new(a);
    for &(name, text) in files {
        let bytes = Vec::from_slice(a, text.as_bytes())?;
        held.push((String::from_str(a, name)?, bytes))?;
    }
    if !names_are_distinct(&held) {
        return Ok(None);
    }
    Ok(Some(Logged {
        files: MemLibrary::new(held, vec![in a; failing]?),
        asked: String::new(a),
    }))
}
