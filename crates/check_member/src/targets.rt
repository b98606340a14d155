//! The table of where moves lead.

ghost use Rattle.std.specs.Prelude.{◌≡◌, ◌≢◌, ◌<◌, ◌≤◌, ◌+◌, ◌*◌, ℕ, List, All, IfOk, [], None, Some, ◌++◌, false, length, slice_index_or, slice_set, true};
ghost use Rattle.cal_model.specs.Actor.{Move};
ghost use Rattle.cal_model.specs.Sound.{max_actions, max_states};
ghost use Rattle.cal_model.specs.Tags.{moves_by};
ghost use Rattle.cal_check.specs.Schedules.{some_conflict};
ghost use Rattle.check_member.specs.Targets.{Tells};

use std::alloc::{AllocError, Global};

/// The table of so many states and columns that has no move.
pub(crate) fn empty_table(
    alloc: Global,
    states: usize,
    columns: usize,
) -> Result<Vec<Option<u16>>, AllocError>
    requires few_states { states ≤ max_states }
    requires few_columns { columns ≤ max_actions }
    ensures { IfOk result (λ table. Tells states columns table.items []) }
{
    let mut table = Vec::new(alloc);
    for _place in 0..states * columns {
        table.push(None)?;
    }
    Ok(table)
}

/// Enters into a table with so many columns that each of these actions leads from one state to another, until one leads
/// elsewhere already. Whether one does.
pub(crate) fn conflicts_with(
    targets: &mut [Option<u16>],
    columns: usize,
    from: u16,
    actions: &[u16],
    to: u16,
) -> bool
    requires in_table { All (λ action. from * columns + action < length targets.old) actions.now }
    ensures elsewhere { result ≡ true → (states : ℕ) (before : List Move)
        → from < states → All (λ action. action < columns) actions.now
        → Tells states columns targets.old before
        → some_conflict (moves_by from actions.now to) before ≡ true }
    ensures nowhere { result ≡ false → (states : ℕ) (before : List Move)
        → from < states → All (λ action. action < columns) actions.now
        → Tells states columns targets.old before
        → some_conflict (moves_by from actions.now to) before ≡ false }
    ensures entered { result ≡ false → (states : ℕ) (before : List Move)
        → from < states → All (λ action. action < columns) actions.now
        → Tells states columns targets.old before
        → Tells states columns targets.new (before ++ moves_by from actions.now to) }
    ensures size { length targets.new ≡ length targets.old }
{
    for action in actions {
        if enter(
            targets,
            usize::from(from) * columns + usize::from(*action),
            to,
        ) {
            return true;
        }
    }
    false
}

/// Enters a state at a place, unless another one stands there. Whether another one does.
fn enter(targets: &mut [Option<u16>], place: usize, to: u16) -> bool
    requires { place < length targets.old }
    ensures another { result ≡ true → (other : ℕ)
        × (slice_index_or targets.old place None ≡ Some other) × (other ≢ to) }
    ensures the_same { result ≡ false
        → (other : ℕ) → slice_index_or targets.old place None ≡ Some other → other ≡ to }
    ensures entered { result ≡ false → targets.new ≡ slice_set targets.old place (Some to) }
    ensures size { length targets.new ≡ length targets.old }
{
    match targets[place] {
        Some(other) if other != to => true,
        _ => {
            targets[place] = Some(to);
            false
        }
    }
}
