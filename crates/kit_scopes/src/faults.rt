//! Broken rules as text.

use cal_scope::ScopeFault;
use std::alloc::{AllocError, Global};

/// A rule with its place in the text of the row.
pub fn fault_shown(alloc: Global, fault: ScopeFault, before: &str) -> Result<String, AllocError> {
    match fault {
        ScopeFault::Broken { rule, at } => {
            let place = (at as usize).saturating_sub(before.len());
            format!(in alloc; "{rule} at {place}")
        }
        ScopeFault::Memory => String::from_str(alloc, "Memory"),
    }
}
