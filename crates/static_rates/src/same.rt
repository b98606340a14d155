//! Whether all actions have the same rates.

ghost use Rattle.std.specs.Prelude.{◌≡◌, ◌<◌, ◌↔◌, IsTrue, length};
ghost use Rattle.cal_model.specs.Sound.{IsSound};
ghost use Rattle.cal_model.specs.View.{actor_of};
ghost use Rattle.static_rates.specs.Static.{HaveSameRates, AllHaveSameRates};

use cal_model::{Bound, give, need};

/// Whether an action has the rates of the first one.
fn is_like_the_first(b: &Bound, action: u16) -> bool
    requires sound { IsSound (actor_of b.now) }
    requires among { action < length b.now.actions.items }
    ensures { IsTrue result ↔ HaveSameRates (actor_of b.now) action 0 }
{
    for port in 0..b.ins.len() as u32 {
        if need(b, action, port) != need(b, 0, port) {
            return false;
        }
    }
    for port in 0..b.outs.len() as u32 {
        if give(b, action, port) != give(b, 0, port) {
            return false;
        }
    }
    true
}

/// Whether all actions have the same rates.
pub(crate) fn are_alike(b: &Bound) -> bool
    requires { IsSound (actor_of b.now) }
    ensures { IsTrue result ↔ AllHaveSameRates (actor_of b.now) }
{
    for action in 0..b.actions.len() as u16 {
        if !is_like_the_first(b, action) {
            return false;
        }
    }
    true
}
