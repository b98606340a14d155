//! What is asked of each action.

ghost use Rattle.std.specs.Prelude.{◌≡◌, map, not};
ghost use Rattle.cal_model.specs.Eligible.{has_initialize, is_empty};
ghost use Rattle.cal_model.specs.View.{action_view};
ghost use Rattle.static_rates.specs.Moves.{has_untagged};
ghost use Rattle.static_rates.specs.Static.{has_guard};

use cal_model::BoundAction;

/// Whether an action is an `initialize`.
pub(crate) fn any_initialize(actions: &[BoundAction]) -> bool
    ensures { result ≡ has_initialize (map action_view actions.now) }
{
    let mut left = actions;
    while let Some((first, others)) = left.split_first() {
        if first.initialize {
            return true;
        }
        left = others;
    }
    false
}

/// Whether an action has a guard.
pub(crate) fn any_guard(actions: &[BoundAction]) -> bool
    ensures { result ≡ has_guard (map action_view actions.now) }
{
    let mut left = actions;
    while let Some((first, others)) = left.split_first() {
        if is_guarded(first) {
            return true;
        }
        left = others;
    }
    false
}

/// Whether this action has a guard.
fn is_guarded(action: &BoundAction) -> bool
    ensures { result ≡ not (is_empty (action_view action.now).guards) }
{
    !action.guards.is_empty()
}

/// Whether an action has no tag.
pub(crate) fn any_untagged(actions: &[BoundAction]) -> bool
    ensures { result ≡ has_untagged (map action_view actions.now) }
{
    let mut left = actions;
    while let Some((first, others)) = left.split_first() {
        if is_untagged(first) {
            return true;
        }
        left = others;
    }
    false
}

/// Whether this action has no tag.
fn is_untagged(action: &BoundAction) -> bool
    ensures { result ≡ is_empty (action_view action.now).tag }
{
    action.tag.is_empty()
}
