//! Whether some action is eligible in each state.

ghost use Rattle.std.specs.Prelude.{◌≡◌, map, true, false};
ghost use Rattle.cal_model.specs.Eligible.{has_initialize};
ghost use Rattle.cal_model.specs.Sound.{IsSound};
ghost use Rattle.cal_model.specs.View.{actor_of, move_view};
ghost use Rattle.static_rates.specs.Moves.{leads_on};
ghost use Rattle.static_rates.specs.Static.{AlwaysEligible, HasDeadState};

use crate::actions::any_untagged;
use cal_model::{Bound, BoundMove};

/// Whether the schedule leads on from a state.
fn any_from(moves: &[BoundMove], state: u16) -> bool
    ensures { result ≡ leads_on (map move_view moves.now) state }
{
    let mut left = moves;
    while let Some((first, others)) = left.split_first() {
        if first.from == state {
            return true;
        }
        left = others;
    }
    false
}

/// Whether there is a state in which no action is eligible.
pub(crate) fn has_dead_state(b: &Bound) -> bool
    requires sound { IsSound (actor_of b.now) }
    requires plain { has_initialize (actor_of b.now).actions ≡ false }
    ensures dead { result ≡ true → HasDeadState (actor_of b.now) }
    ensures alive { result ≡ false → AlwaysEligible (actor_of b.now) }
{
    if b.states.is_empty() {
        return b.actions.is_empty();
    }
    if any_untagged(&b.actions) {
        return false;
    }
    for state in 0..b.states.len() as u16 {
        if !any_from(&b.moves, state) {
            return true;
        }
    }
    false
}
