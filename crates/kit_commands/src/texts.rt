//! Rows as text: their words, and what was left.

use rvc_io::MemDrains;
use std::alloc::{AllocError, Global};
use std::str;

/// A text up to the first of a mark, and what is behind it.
pub fn cut<'a>(text: &'a str, mark: &str) -> (&'a str, &'a str) {
    text.split_once(mark).unwrap_or((text, ""))
}

/// The words of a line, which one blank each parts.
///
/// # Errors
///
/// `AllocError` if memory runs out.
pub fn words(alloc: Global, line: &str) -> Result<Vec<String>, AllocError> {
    let mut words = Vec::new(alloc);
    for word in line.split(' ') {
        words.push(String::from_str(alloc, word)?)?;
    }
    Ok(words)
}

/// The bytes of a text, with one byte in place of another.
pub(crate) fn replaced(alloc: Global, text: &str, old: u8, new: u8) -> Result<Vec<u8>, AllocError> {
    let mut bytes = Vec::new(alloc);
    for &byte in text.as_bytes() {
        bytes.push(if byte == old { new } else { byte })?;
    }
    Ok(bytes)
}

/// Whether a text begins with that of a row, in which `/` ends each line.
pub fn begins(text: &str, row: &str) -> bool {
    let text = text.as_bytes();
    let row = row.as_bytes();
    if row.len() > text.len() {
        return false;
    }
    for at in 0..row.len() {
        let byte = if row[at] == b'/' { b'\n' } else { row[at] };
        if text[at] != byte {
            return false;
        }
    }
    true
}

/// What channels hold: `REPORT | TRACE | OUTPUT`, the texts of the channels 0 and 1, and the bytes of channel 2 as
/// numbers, with those of channel 3 behind them if it has any. Of a trace of more than 100 bytes, and of an output of
/// more than 4, the first are told, and how many there are.
///
/// # Errors
///
/// `AllocError` if memory runs out.
pub fn left(alloc: Global, drains: &MemDrains) -> Result<String, AllocError> {
    let report = str::from_utf8(drains.held(0)).unwrap_or("?");
    let mut left = format!(in alloc; "{report} | ")?;
    put_trace(&mut left, drains.held(1))?;
    left.push_str(" | ")?;
    put_output(&mut left, drains.held(2))?;
    let other = drains.held(3);
    if !other.is_empty() {
        left.push_str(" ")?;
        put_output(&mut left, other)?;
    }
    Ok(left)
}

/// Puts a trace of at most 100 bytes, or the first of them and how many there are.
fn put_trace(left: &mut String, trace: &[u8]) -> Result<(), AllocError> {
    match trace.get(..100) {
        None => left.push_str(str::from_utf8(trace).unwrap_or("?")),
        Some(first) => {
            let first = str::from_utf8(first).unwrap_or("?");
            write!(left, "{first} of {}", trace.len())
        }
    }
}

/// Puts an output of at most 4 bytes, or the first of them and how many there are.
fn put_output(left: &mut String, output: &[u8]) -> Result<(), AllocError> {
    if output.len() <= 4 {
        return write!(left, "{output:?}");
    }
    let first = output.get(..4).unwrap_or(output);
    write!(left, "{first:?} of {}", output.len())
}
