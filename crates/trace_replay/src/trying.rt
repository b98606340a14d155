//! Lines that name an action of an instance: a firing, and the trap that ends a run.

ghost use Rattle.std.specs.Prelude.{◌≡◌, ◌≢◌, true, false, IfNone, IfSome, length, map};
ghost use Rattle.net_state.specs.Held.{seen};
ghost use Rattle.net_state.specs.Moving.{SameActors};
ghost use Rattle.net_state.specs.TakingBack.{NoMoreWait};
ghost use Rattle.trace_replay.specs.Trying.{AllWork, FailsToFire, FiresOn, TrapsNotSo, TrapsSo};

use crate::why::Why;
use net_model::{Firing, Tried};
use net_state::NetState;
use rvc_base::{ActId, InstId, Trap};

/// Fires an action that a line names, or says why it may not fire. `count` is the number of instances.
pub(crate) fn fire<A: Firing>(
    state: &mut NetState<A>,
    count: u32,
    inst: u32,
    action: u16,
) -> Option<Why>
    requires count { count ≡ length state.old.cells }
    requires work { AllWork (map A.cell state.old.cells) }
    ensures fires { IfNone result (FiresOn inst action (seen A.cell state.old)
        (seen A.cell state.new)) }
    ensures fails { IfSome result (FailsToFire inst action (seen A.cell state.old)) }
    ensures still_work { IfNone result (AllWork (map A.cell state.new.cells)) }
    ensures same_actors { IfNone result (SameActors (map A.cell state.old.cells)
        (map A.cell state.new.cells)) }
    ensures fewer { NoMoreWait (seen A.cell state.old) (seen A.cell state.new) }
    ensures links { state.new.links ≡ state.old.links }
    ensures capacities { state.new.capacities ≡ state.old.capacities }
    ensures waited { state.new.waited ≡ state.old.waited }
{
    if inst >= count {
        return Some(Why::NotExposed);
    }
    match state.try_fire(InstId(inst), ActId(action)) {
        Tried::Fired => None,
        Tried::Trap(_) => Some(Why::Trap),
        Tried::NotExposed => Some(Why::NotExposed),
        Tried::NoRoom { port: _ } => Some(Why::NoRoom),
    }
}

/// Whether an action that a line names traps so. The run ends with it, so the cell's state is any then.
pub(crate) fn traps<A: Firing>(
    state: &mut NetState<A>,
    count: u32,
    inst: u32,
    action: u16,
    trap: Trap,
) -> bool
    requires count { count ≡ length state.old.cells }
    requires work { AllWork (map A.cell state.old.cells) }
    ensures yes { result ≡ true → TrapsSo inst action trap (seen A.cell state.old) }
    ensures no { result ≡ false → TrapsNotSo inst action trap (seen A.cell state.old) }
{
    if inst >= count {
        return false;
    }
    match state.try_fire(InstId(inst), ActId(action)) {
        Tried::Fired => false,
        Tried::Trap(cause) => is_trap(cause, trap),
        Tried::NotExposed => false,
        Tried::NoRoom { port: _ } => false,
    }
}

/// Whether two traps are the same.
fn is_trap(one: Trap, other: Trap) -> bool
    ensures yes { result ≡ true → one ≡ other }
    ensures no { result ≡ false → one ≢ other }
{
    one == other
}
