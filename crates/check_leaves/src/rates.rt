//! The most tokens that a firing takes or gives.

ghost use Rattle.std.specs.Prelude.{◌≡◌, ◌<◌, length};
ghost use Rattle.cal_model.specs.Rates.{give, need};
ghost use Rattle.cal_model.specs.Sound.{IsSound};
ghost use Rattle.cal_model.specs.View.{actor_of};
ghost use Rattle.fnl_source.specs.Actors.{most};

use cal_model::{Bound, give, need};

/// The most tokens that an action takes from an input port.
pub(crate) fn most_taken(b: &Bound, port: u32) -> u32
    requires sound { IsSound (actor_of b.now) }
    requires has_port { port < length b.now.ins.items }
    ensures { result ≡ most (λ a. need (actor_of b.now) a port) (length b.now.actions.items) }
{
    let mut largest = 0u32;
    for action in 0..b.actions.len() as u16 {
        largest = need(b, action, port).max(largest);
    }
    largest
}

/// The most tokens that an action gives on an output port.
pub(crate) fn most_given(b: &Bound, port: u32) -> u32
    requires sound { IsSound (actor_of b.now) }
    requires has_port { port < length b.now.outs.items }
    ensures { result ≡ most (λ a. give (actor_of b.now) a port) (length b.now.actions.items) }
{
    let mut largest = 0u32;
    for action in 0..b.actions.len() as u16 {
        largest = give(b, action, port).max(largest);
    }
    largest
}
