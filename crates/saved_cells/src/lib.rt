//! What a saved run needs of an actor at work: its state as numbers.
//!
//! The state of an actor is a state of its schedule and a scalar for each state variable that changes; a list has as many
//! as it has elements. [`Saves`] reads these numbers and sets them, one at a time.
#![tactic(auto)]

ghost use Rattle.std.specs.Prelude.{◌≡◌, ◌<◌, length, slice_get, Some};
ghost use Rattle.rvc_base.specs.Lawful.{tokens_on};
ghost use Rattle.saved_cells.specs.Shown.{Shown, IsShown, SetsScalar, SetsNumber, StaysBut};

use net_model::Firing;
use rvc_base::Num;

/// An actor at work whose state is read and set as numbers. No call takes memory.
pub trait Saves: Firing {
    /// Its state as numbers.
    ghost shown: { Self → Shown Self };

    /// The state of the schedule, as a number.
    fn schedule_state(&self) -> u16
        ensures { result ≡ (shown self.now).number };

    /// How many scalars the state variables that change have. That the state is the one which its number and its scalars
    /// make is told with it.
    fn values(&self) -> u32
        ensures count { result ≡ length (shown self.now).kinds }
        ensures shown { IsShown Self.cell self.now (shown self.now) };

    /// Scalar `k` of the state variables that change, counted from 0 in the order of the source.
    fn value(&self, k: u32) -> Num
        requires { k < length (shown self.now).kinds }
        ensures { slice_get (shown self.now).scalars k ≡ Some result };

    /// Token `k` of those that wait before an input port, counted from 0 at the one that came first.
    fn held_at(&self, port: u32, k: u32) -> Num
        requires port { port < (Self.cell self.now).actor.ins }
        requires among { k < length (tokens_on (Self.cell self.now).inboxes port) }
        ensures { slice_get (tokens_on (Self.cell self.now).inboxes port) k ≡ Some result };

    /// Sets scalar `k` to `v` if `v` is in the scalar's type, and says whether it is. If it isn't nothing changes.
    fn restore(&mut self, k: u32, v: Num) -> bool
        requires { k < length (shown self.old).kinds }
        ensures sets { SetsScalar k v (shown self.old) result (shown self.new) }
        ensures stays { StaysBut (Self.cell self.old) result (Self.cell self.new) };

    /// Sets the state of the schedule to `s` if there is such a state, and says whether there is. If there is none nothing
    /// changes.
    fn restore_state(&mut self, s: u16) -> bool
        ensures sets { SetsNumber s (shown self.old) result (shown self.new) }
        ensures stays { StaysBut (Self.cell self.old) result (Self.cell self.new) };
}
