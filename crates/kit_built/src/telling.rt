//! What a cell did, as text.

use actor_cell::Cell;
use net_model::{BurstEnd, Firing};
use std::alloc::{AllocError, Global};

/// Adds how a burst ended.
fn add_end(out: &mut String, end: Option<BurstEnd>) -> Result<(), AllocError> {
    match end {
        Some(BurstEnd::Waits) => out.push_str(", waits"),
        Some(BurstEnd::Trap { action, trap }) => {
            let number = action.0;
            let name = trap.name();
            write!(out, ", traps in {number} by {name}")
        }
        _ => out.push_str(", goes on"),
    }
}

/// Which actions fired, what was sent, how the burst ended, and how many tokens wait then before the first port.
pub(crate) fn told(
    alloc: Global,
    cell: &Cell,
    end: Option<BurstEnd>,
) -> Result<String, AllocError> {
    let mut out = String::from_str(alloc, "fires")?;
    for action in cell.journal() {
        write!(out, " {action}")?;
    }
    out.push_str(", sends")?;
    if cell.actor().outs() > 0 {
        for k in 0..cell.sent(0) {
            let token = cell.sent_at(0, k);
            write!(out, " {token}")?;
        }
    }
    add_end(&mut out, end)?;
    if cell.actor().ins() > 0 {
        let held = cell.held(0);
        write!(out, ", {held} left")?;
    }
    Ok(out)
}
