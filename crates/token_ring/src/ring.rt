//! A queue of tokens in one block of memory.

ghost use Rattle.std.specs.Prelude.{◌≡◌, ◌≤◌, ◌<◌, ◌+◌, ◌-◌, ◌++◌, ◌∷◌, ◌==◌, [], IfOk, length, drop, slice_get, Some};
ghost use Rattle.token_ring.specs.Queue.{Queue};

use crate::peek::Peek;
use circular_buffer::HeapCircularBuffer;
use rvc_base::{Memory, Num};
use std::alloc::Global;
use std::marker::Model;

/// A queue of tokens with a fixed capacity, which is at least 1.
#[derive(Drop)]
pub struct Ring {
    tokens: HeapCircularBuffer<Num>,
}

impl Model for Ring {
    ghost use Rattle.std.specs.Prelude.{◌≤◌, ◌<◌, ◌^◌};
    ghost use Rattle.token_ring.specs.Queue.{Queue};

    ghost Value = { Queue };

    ghost view = { λ r. record { tokens = r.tokens.items; capacity = r.tokens.capacity } };

    ghost invariant = { λ r. (1 ≤ r.tokens.capacity) × (r.tokens.capacity < 2 ^ 32) };
}

impl Ring {
    /// An empty queue for so many tokens.
    ///
    /// # Errors
    ///
    /// `Memory` if memory runs out.
    pub fn new(alloc: Global, capacity: u32) -> Result<Ring, Memory>
        requires { 1 ≤ capacity }
        ensures empty { IfOk result (λ ring. ring.tokens ≡ []) }
        ensures capacity { IfOk result (λ ring. ring.capacity ≡ capacity) }
    {
        let tokens = HeapCircularBuffer::with_capacity(alloc, capacity as usize)?;
        Ok(Ring { tokens })
    }

    /// How many tokens there are.
    pub fn len(&self) -> u32
        ensures len { result ≡ length self.now.tokens }
        ensures within { result ≤ self.now.capacity }
    {
        self.tokens.len() as u32
    }

    /// Whether there is no token.
    pub fn is_empty(&self) -> bool
        ensures { result ≡ (length self.now.tokens == 0) }
    {
        self.tokens.is_empty()
    }

    /// How many tokens more there may be.
    pub fn room(&self) -> u32
        ensures { result + length self.now.tokens ≡ self.now.capacity }
    {
        (self.tokens.capacity() - self.tokens.len()) as u32
    }

    /// The token at place `k`, counted from 0 at the one that came first.
    pub fn at(&self, k: u32) -> Num
        requires { k < length self.now.tokens }
        ensures { slice_get self.now.tokens k ≡ Some result }
    {
        *self.tokens.get(k as usize).unwrap()
    }

    /// The tokens, as they lie in the queue.
    pub fn peek(&self) -> Peek<'_>
        ensures { result ≡ self.now.tokens }
    {
        let (front, back) = self.as_slices();
        Peek::new(front, back)
    }

    /// The tokens as two slices: those up to the end of the block, and behind them those that lie at its start.
    pub fn as_slices(&self) -> (&[Num], &[Num])
        ensures { result.0.now ++ result.1.now ≡ self.now.tokens }
    {
        self.tokens.as_slices()
    }

    /// Puts a token behind the others.
    pub fn push(&mut self, v: Num)
        requires { length self.old.tokens < self.old.capacity }
        ensures { self.new ≡ record {
          tokens = self.old.tokens ++ v ∷ [];
          capacity = self.old.capacity;
        } }
    {
        let _ = self.tokens.push_back(v);
    }

    /// Puts tokens behind the others, in their order.
    pub fn push_all(&mut self, tokens: &[Num])
        requires { length self.old.tokens + length tokens.now ≤ self.old.capacity }
        ensures { self.new ≡ record {
          tokens = self.old.tokens ++ tokens.now;
          capacity = self.old.capacity;
        } }
    {
        let _ = self.tokens.fill_from_slice(tokens);
    }

    /// Takes back the token that came last.
    pub fn take_back(&mut self) -> Num
        requires { 1 ≤ length self.old.tokens }
        ensures { self.old ≡ record {
          tokens = self.new.tokens ++ result ∷ [];
          capacity = self.new.capacity;
        } }
    {
        self.tokens.pop_back().unwrap()
    }

    /// Drops the first `n` tokens.
    pub fn take(&mut self, n: u32)
        requires { n ≤ length self.old.tokens }
        ensures { self.new ≡ record {
          tokens = drop n self.old.tokens;
          capacity = self.old.capacity;
        } }
    {
        let kept = self.tokens.len() - n as usize;
        self.tokens.truncate_front(kept);
    }
}
