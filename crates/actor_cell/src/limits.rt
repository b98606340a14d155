//! What a caller may ask of a cell before a call that has a condition.

ghost use Rattle.std.specs.Prelude.{◌≡◌, ◌+◌, ◌<◌, IsTrue, length};
ghost use Rattle.rvc_base.specs.Lawful.{tokens_on};
ghost use Rattle.net_model.specs.Cell.{AreRooms, number_on};
ghost use Rattle.actor_cell.specs.Queues.{MayHoldEach};
ghost use Rattle.actor_cell.specs.Core.{seen};

use crate::cell::Cell;
use crate::outbox::Outbox;
use lowered_actor::Lowered;

impl Cell {
    /// The actor that it works.
    #[inline]
    pub fn actor(&self) -> &Lowered
        ensures { result.now ≡ self.now.actor }
    {
        &self.code
    }

    /// Whether an action trapped. Then it fires no more.
    #[inline]
    pub fn is_trapped(&self) -> bool
        ensures { result ≡ self.now.trapped }
    {
        self.trapped
    }

    /// How many tokens more may wait before an input port.
    #[inline]
    pub fn room_before(&self, port: u32) -> u32
        requires { port < self.now.actor.ins }
        ensures { result + length (tokens_on (seen self.now).inboxes port)
            ≡ number_on (seen self.now).inbox_capacities port }
    {
        self.inboxes[port as usize].room()
    }

    /// How many firings more its journal may name.
    #[inline]
    pub fn room_in_journal(&self) -> usize
        ensures { result + length self.now.journal ≡ self.now.journal_room }
    {
        self.journal.capacity() - self.journal.len()
    }

    /// Whether these are rooms of its output ports: one for each, at most what its outbox can hold, or 4,294,967,295 for a
    /// port that nobody reads.
    pub fn are_rooms(&self, rooms: &[u32]) -> bool
        ensures { IsTrue result → AreRooms (seen self.now) rooms.now }
    {
        rooms.len() == self.outboxes.len() && may_hold_each(&self.outboxes, rooms)
    }
}

/// Whether each of these outboxes may hold as many tokens as the room at its place says.
fn may_hold_each(outboxes: &[Outbox], rooms: &[u32]) -> bool
    requires { length rooms.now ≡ length outboxes.now }
    ensures { IsTrue result → MayHoldEach outboxes.now rooms.now (length outboxes.now) }
{
    for p in 0..outboxes.len() {
        if !outboxes[p].may_hold(rooms[p]) {
            return false;
        }
    }
    true
}
