//! The queues behind the outputs of an actor.

ghost use Rattle.std.specs.Prelude.{◌≡◌, ◌+◌, ◌^◌, ◌≤◌, ◌<◌, ◌++◌, [], IfOk, IsTrue, Some, length, slice_get};
ghost use Rattle.lowered_actor.specs.Facts.{cells_from};
ghost use Rattle.actor_cell.specs.Queues.{HasRoomFor, MayHold, sent_to};

use action_machine::Cells;
use rvc_base::{Memory, Num};
use std::alloc::Global;
use std::marker::Model;
use token_ring::Ring;

/// What was sent on an output port and hasn't left yet. If nobody reads the port, its capacity is 0 and it stays empty.
#[derive(Drop)]
pub(crate) struct Outbox {
    ring: Option<Ring>,
}

impl Model for Outbox {
    ghost use Rattle.token_ring.specs.Queue.{Queue};
    ghost use Rattle.actor_cell.specs.Queues.{IsRoomy, queue_of};

    ghost Value = { Queue };

    ghost view = { λ o. queue_of o.ring };

    ghost invariant = { λ o. IsRoomy o.ring };
}

impl Outbox {
    /// An empty outbox for so many tokens; of capacity 0 for a port that nobody reads.
    ///
    /// # Errors
    ///
    /// `Memory` if memory runs out.
    pub(crate) fn new(alloc: Global, capacity: u32) -> Result<Outbox, Memory>
        ensures { IfOk result (λ outbox. outbox ≡ record { tokens = []; capacity = capacity }) }
    {
        if capacity == 0 {
            return Ok(Outbox { ring: None });
        }
        let ring = Ring::new(alloc, capacity)?;
        Ok(Outbox { ring: Some(ring) })
    }

    /// How many tokens there are.
    #[inline]
    pub(crate) fn len(&self) -> u32
        ensures { result ≡ length self.now.tokens }
    {
        match &self.ring {
            Some(ring) => ring.len(),
            None => 0,
        }
    }

    /// The token at place `k`, counted from 0 at the one that was sent first.
    #[inline]
    pub(crate) fn at(&self, k: u32) -> Num
        requires { k < length self.now.tokens }
        ensures { slice_get self.now.tokens k ≡ Some result }
    {
        match &self.ring {
            Some(ring) => ring.at(k),
            None => unreachable!(),
        }
    }

    /// The tokens as two slices, the first part before the second.
    #[inline]
    pub(crate) fn as_slices(&self) -> (&[Num], &[Num])
        ensures { result.0.now ++ result.1.now ≡ self.now.tokens }
    {
        match &self.ring {
            Some(ring) => ring.as_slices(),
            None => (&[], &[]),
        }
    }

    /// Whether so many tokens are at most its capacity; if nobody reads the port, whether it is the room that is named then.
    pub(crate) fn may_hold(&self, room: u32) -> bool
        ensures { IsTrue result → MayHold self.now room }
    {
        match &self.ring {
            Some(ring) => room <= ring.len() || room - ring.len() <= ring.room(),
            None => room == u32::MAX,
        }
    }

    /// Sends the numbers of `count` cells, from `first` on. If nobody reads the port they are dropped.
    pub(crate) fn send(&mut self, cells: &Cells, first: u32, count: u32)
        requires cells { first + count ≤ length cells.now.numbers }
        requires few { first + count < 2 ^ 32 }
        requires room { HasRoomFor self.old count }
        ensures { self.new ≡ sent_to self.old (cells_from cells.now.numbers first count) }
    {
        if let Some(ring) = &mut self.ring {
            push_cells(ring, cells, first, count);
        }
    }

    /// Drops all tokens.
    #[inline]
    pub(crate) fn clear(&mut self)
        ensures { self.new ≡ record { tokens = []; capacity = self.old.capacity } }
    {
        if let Some(ring) = &mut self.ring {
            let count = ring.len();
            ring.take(count);
        }
    }
}

/// Puts the numbers of `count` cells, from `first` on, behind the tokens of a queue.
fn push_cells(ring: &mut Ring, cells: &Cells, first: u32, count: u32)
    requires cells { first + count ≤ length cells.now.numbers }
    requires few { first + count < 2 ^ 32 }
    requires room { length ring.old.tokens + count ≤ ring.old.capacity }
    ensures { ring.new ≡ record {
      tokens = ring.old.tokens ++ cells_from cells.now.numbers first count;
      capacity = ring.old.capacity;
    } }
{
    for k in 0..count {
        ring.push(cells.get(first + k));
    }
}
