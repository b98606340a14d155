//! Files in memory.

use crate::texts::{cut, replaced};
use std::alloc::{AllocError, Global};

/// Files, by their names.
pub type Files = Vec<(String, Vec<u8>)>;

/// Adds a file `NAME TEXT`, if the text isn't empty.
fn add(files: &mut Files, alloc: Global, file: &str) -> Result<(), AllocError> {
    if file.is_empty() {
        return Ok(());
    }
    let (name, text) = cut(file, " ");
    let name = String::from_str(alloc, name)?;
    files.push((name, replaced(alloc, text, b'\x7f', 255)?))?;
    Ok(())
}

/// The files of two texts. In each `\n+ ` stands between two files, which are `NAME TEXT`.
pub fn sources(alloc: Global, own: &str, others: &str) -> Result<Files, AllocError> {
    let mut files = Vec::new(alloc);
    for text in [own, others] {
        for file in text.split("\n+ ") {
            add(&mut files, alloc, file)?;
        }
    }
    Ok(files)
}

/// The inputs of rows.
const INPUTS: &[(&str, &[u8])] = &[
    ("in", &[0, 1, 255]),
    ("zero", &[5, 0, 3]),
    ("one", &[7]),
    ("empty", &[]),
    ("four", &[1, 2, 3, 4]),
    (
        "block",
        &[0, 0, 100, 0, 0, 0, 212, 254, 2, 0, 27, 0, 58, 0, 5, 0],
    ),
];

/// The inputs `in` of the bytes 0, 1 and 255, `zero` of 5, 0 and 3, `one` of 7, `empty` of none, `four` of 1 to 4 and
/// `block` of four pairs of numbers of two bytes, and the trace under the name `t`, in which `/` ends each line.
pub fn inputs(alloc: Global, trace: &str) -> Result<Files, AllocError> {
    let mut files = Vec::new(alloc);
    for &(name, bytes) in INPUTS {
        let name = String::from_str(alloc, name)?;
        files.push((name, Vec::from_slice(alloc, bytes)?))?;
    }
    let name = String::from_str(alloc, "t")?;
    files.push((name, replaced(alloc, trace, b'/', b'\n')?))?;
    Ok(files)
}
