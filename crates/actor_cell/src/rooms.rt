//! The room behind the outputs, and what is sent there.

ghost use Rattle.std.specs.Prelude.{◌≡◌, ◌+◌, ◌^◌, ◌≤◌, ◌<◌, IfNone, IfSome, ℕ, length};
ghost use Rattle.lowered_actor.specs.Actor.{action_of, number_on};
ghost use Rattle.actor_cell.specs.Queues.{AreEmptied, AreInRoom, AreSent, HaveRoomFor, IsFirstLacking};

use crate::outbox::Outbox;
use action_machine::Cells;
use lowered_actor::ActionCode;

/// The first of `outs` output ports at which an outbox would hold more than the port's room, once an action has given its
/// tokens.
pub(crate) fn lacking(outboxes: &[Outbox], outs: u32, gives: &[u32], rooms: &[u32]) -> Option<u32>
    requires outs { length outboxes.now ≡ outs }
    requires gives { length gives.now ≡ outs }
    requires rooms { length rooms.now ≡ outs }
    ensures some { IfSome result (IsFirstLacking outboxes.now gives.now rooms.now) }
    ensures none { IfNone result (AreInRoom outboxes.now gives.now rooms.now) }
{
    for port in 0..outs {
        let p = port as usize;
        if u64::from(rooms[p]) < u64::from(outboxes[p].len()) + u64::from(gives[p]) {
            return Some(port);
        }
    }
    None
}

/// Sends on each port what an action left in its cells.
pub(crate) fn send_each(outboxes: &mut [Outbox], action: &ActionCode, cells: &Cells)
    requires gives { length action.now.gives.items ≡ length outboxes.old }
    requires sends { length action.now.sends.items ≡ length outboxes.old }
    requires cells { (p : ℕ) → p < length outboxes.old
        → number_on action.now.sends.items p + number_on action.now.gives.items p
        ≤ length cells.now.numbers }
    requires few { length cells.now.numbers < 2 ^ 32 }
    requires room { HaveRoomFor action.now.gives.items outboxes.old }
    ensures { AreSent (action_of action.now) cells.now.numbers outboxes.old outboxes.new }
{
    for p in 0..outboxes.len() {
        outboxes[p].send(cells, action.sends[p], action.gives[p]);
    }
}

/// Empties the outboxes.
pub(crate) fn clear_each(outboxes: &mut [Outbox])
    ensures { AreEmptied outboxes.old outboxes.new }
{
    for p in 0..outboxes.len() {
        outboxes[p].clear();
    }
}
