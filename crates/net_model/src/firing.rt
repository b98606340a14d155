//! An actor at work, as the runner of rounds and the replay of traces see it.

ghost use Rattle.std.specs.Prelude.{◌≡◌, ◌+◌, ◌≤◌, ◌<◌, ◌⊎◌, false, length, slice_get, Some};
ghost use Rattle.rvc_base.specs.Lawful.{IsLawful, tokens_on};
ghost use Rattle.net_model.specs.Cell.{Cell, number_on, AreRooms, IsSame, Bursts, Looks, Tries, Accepts, Clears, FitsQueues};

use rvc_base::{ActId, Num, Trap};

/// How a burst of firings ended.
#[derive(Clone, Copy, Debug, PartialEq, Eq)]
pub enum BurstEnd {
    /// As many firings were made as were allowed.
    Spent,
    /// No action is to fire.
    Waits,
    /// The selected action lacks room, first on this output port.
    NoRoom { action: ActId, port: u32 },
    /// The selected action traps.
    Trap { action: ActId, trap: Trap },
}

/// What an actor would do next.
#[derive(Clone, Copy, Debug, PartialEq, Eq)]
pub enum Look {
    /// No action is to fire.
    Waits,
    /// The selected action, which has room.
    Ready(ActId),
    /// The selected action, which lacks room, first on this output port.
    NoRoom { action: ActId, port: u32 },
    /// The action whose guards trap.
    GuardTrap(ActId, Trap),
}

/// What came of an action that was named.
#[derive(Clone, Copy, Debug, PartialEq, Eq)]
pub enum Tried {
    Fired,
    /// Its guards trap, or it has room and then traps.
    Trap(Trap),
    /// It is neither exposed and enabled nor exposed with guards that trap.
    NotExposed,
    /// It is exposed and enabled and lacks room, first on this output port.
    NoRoom { port: u32 },
}

/// An actor with its state, the queues before its inputs and behind its outputs, and a journal of its firings.
///
/// `rooms` has one number for each output port: how many tokens its outbox may hold after a firing, at most
/// its capacity, and 4,294,967,295 for a port that nobody reads. No call takes memory, and none changes the
/// actor.
pub trait Firing: Drop {
    /// The states of its actor.
    ghost State: { Type 0 };
    /// All that is seen of it.
    ghost cell: { Self → Cell State };

    /// Makes at most `limit` firings of the actions that selection gives.
    fn burst(&mut self, limit: u32, rooms: &[u32]) -> BurstEnd
        requires untrapped { (cell self.old).trapped ≡ false }
        requires rooms { AreRooms (cell self.old) rooms.now }
        requires journal { length (cell self.old).journal + limit ≤ (cell self.old).journal_room }
        ensures bursts { Bursts rooms.now limit (cell self.old) result (cell self.new) };

    /// Says what selection gives now, and whether it has room. Nothing that is seen changes.
    fn look(&mut self, rooms: &[u32]) -> Look
        requires untrapped { (cell self.old).trapped ≡ false }
        requires rooms { AreRooms (cell self.old) rooms.now }
        ensures looks { Looks rooms.now (cell self.old) result }
        ensures same { IsSame (cell self.old) (cell self.new) };

    /// Fires the named action if it is exposed and enabled, has room and doesn't trap. The journal stays.
    ///
    /// # Errors
    ///
    /// `Trap` if its guards trap, or it has room and then traps. `NotExposed` if it is neither exposed and enabled nor
    /// exposed with guards that trap. `NoRoom` if it is exposed and enabled and lacks room. With the last two nothing
    /// that is seen changes (`tries`).
    fn try_fire(&mut self, action: ActId, rooms: &[u32]) -> Tried
        requires untrapped { (cell self.old).trapped ≡ false }
        requires rooms { AreRooms (cell self.old) rooms.now }
        ensures tries { Tries rooms.now action.0 (cell self.old) result (cell self.new) };

    /// The actions that fired since the last `clear`, in order.
    fn journal(&self) -> &[u16]
        ensures { result.now ≡ (cell self.now).journal };

    /// How many tokens wait before an input port.
    fn held(&self, port: u32) -> u32
        requires port { port < (cell self.now).actor.ins }
        ensures { result ≡ length (tokens_on (cell self.now).inboxes port) };

    /// Puts a token behind those before an input port.
    fn accept(&mut self, port: u32, token: Num)
        requires port { port < (cell self.old).actor.ins }
        requires below { length (tokens_on (cell self.old).inboxes port) < number_on
            (cell self.old).inbox_capacities port }
        ensures accepts { Accepts (cell self.old) port token (cell self.new) };

    /// Takes back the token that came last before an input port: the cell is what it was before `accept` put it there.
    fn take_back(&mut self, port: u32) -> Num
        requires port { port < (cell self.old).actor.ins }
        requires some { 1 ≤ length (tokens_on (cell self.old).inboxes port) }
        ensures takes_back { Accepts (cell self.new) port result (cell self.old) };

    /// How many tokens were sent on an output port and haven't left yet.
    fn sent(&self, port: u32) -> u32
        requires port { port < (cell self.now).actor.outs }
        ensures { result ≡ length (tokens_on (cell self.now).outboxes port) };

    /// The token at place `k` of these, counted from 0.
    fn sent_at(&self, port: u32, k: u32) -> Num
        requires port { port < (cell self.now).actor.outs }
        requires among { k < length (tokens_on (cell self.now).outboxes port) }
        ensures { slice_get (tokens_on (cell self.now).outboxes port) k ≡ Some result };

    /// Empties the outboxes and the journal.
    fn clear(&mut self)
        ensures clears { Clears (cell self.old) (cell self.new) };

    /// How many tokens an action sends on an output port.
    fn give(&self, action: ActId, port: u32) -> u32
        requires action { action.0 < (cell self.now).actor.actions }
        requires port { port < (cell self.now).actor.outs }
        ensures { result ≡ (cell self.now).actor.give action.0 port };

    /// How many output ports it has. What holds of every actor and of its queues is told with it.
    fn outs(&self) -> u32
        ensures count { result ≡ (cell self.now).actor.outs }
        ensures lawful { IsLawful (cell self.now).actor }
        ensures fits { FitsQueues (cell self.now) };
}

#[cfg(test)]
mod tests;
