//! For each state the actions that may be candidates there, so that selection tries no others.

ghost use Rattle.std.specs.Prelude.{◌≡◌, ◌<◌, All, IfOk};
ghost use Rattle.lowered_actor.specs.Candidates.{eligible_among, AreRows};

use schedule_fsm::Fsm;
use std::alloc::{AllocError, Global};

/// The actions that are eligible in a state, in the order of the line.
#[derive(Debug, Drop)]
pub(crate) struct Candidates {
    pub actions: Vec<u16>,
}

/// The candidates of each state.
pub(crate) fn rows(alloc: Global, fsm: &Fsm, line: &[u16]) -> Result<Vec<Candidates>, AllocError>
    requires { All (λ a. a < fsm.now.actions) line.now }
    ensures { IfOk result (λ rows. AreRows fsm.now line.now fsm.now.states rows.items) }
{
    let mut rows = Vec::new(alloc);
    for state in 0..fsm.states() {
        let actions = row(alloc, fsm, line, state)?;
        rows.push(Candidates { actions })?;
    }
    Ok(rows)
}

/// The candidates of a state.
fn row(alloc: Global, fsm: &Fsm, line: &[u16], state: u16) -> Result<Vec<u16>, AllocError>
    requires state { state < fsm.now.states }
    requires actions { All (λ a. a < fsm.now.actions) line.now }
    ensures { IfOk result (λ row. row.items ≡ eligible_among fsm.now state line.now) }
{
    let mut row = Vec::new(alloc);
    for &action in line {
        if fsm.eligible(state, action) {
            row.push(action)?;
        }
    }
    Ok(row)
}
