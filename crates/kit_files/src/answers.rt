//! What a loading asked for and how it ended, as text.

use cal_files::{LoadFault, Names};
use std::alloc::{AllocError, Global};

/// How a loading ended.
pub fn outcome(a: Global, fault: Option<LoadFault>) -> Result<String, AllocError> {
    match fault {
        None => String::from_str(a, "loaded"),
        Some(LoadFault::Refused(r)) => {
            let (rule, file, at) = (r.rule, r.place.file, r.place.offset);
            format!(in a; "{rule} in {file} at {at}")
        }
        Some(LoadFault::ReadFault { file }) => format!(in a; "read fault {file}"),
        Some(LoadFault::Memory) => String::from_str(a, "Memory"),
    }
}

/// The names that were asked for, how the loading ended, and the names of the files that have a number.
pub fn told(a: Global, asked: &str, ended: &str, names: &Names) -> Result<String, AllocError> {
    let mut text = String::from_str(a, asked)?;
    text.push_str("| ")?;
    text.push_str(ended)?;
    text.push_str(" |")?;
    for name in &names.files {
        text.push_str(" ")?;
        text.push_str(name.as_str())?;
    }
    Ok(text)
}
