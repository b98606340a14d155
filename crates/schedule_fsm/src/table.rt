//! The table of an automaton before its steps: a row a state, a column an action.

ghost use Rattle.std.specs.Prelude.{◌≡◌, ℕ, ◌+◌, ◌*◌, ◌<◌, ◌++◌, length, slice_index_or, IfOk, OnOk, map, false};
ghost use Rattle.schedule_fsm.specs.Automaton.{entry};
ghost use Rattle.schedule_fsm.specs.Free.{stay};

use std::alloc::{AllocError, Global};

/// The table without steps: a free action leads from each state to the state itself.
pub(crate) fn free_moves(
    alloc: Global,
    free: &[bool],
    states: u16,
) -> Result<Vec<Option<u16>>, AllocError>
    ensures size { IfOk result (λ table. length table.items ≡ states * length free.now) }
    ensures stays { IfOk result (λ table. (state action : ℕ) → state < states
        → action < length free.now
        → entry (length free.now) table.items state action ≡ stay state (slice_index_or free.now action false)) }
{
    let mut table = Vec::new(alloc);
    for state in 0..states {
        push_row(&mut table, free, state)?;
    }
    Ok(table)
}

/// Appends the row of a state: the state itself for each free action.
fn push_row(table: &mut Vec<Option<u16>>, free: &[bool], state: u16) -> Result<(), AllocError>
    ensures { OnOk result (table.new.items ≡ table.old.items ++ map (stay state) free.now) }
{
    for is_free in free {
        table.push(is_free.then_some(state))?;
    }
    Ok(())
}
