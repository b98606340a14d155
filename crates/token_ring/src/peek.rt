//! A view of the tokens of a queue.

ghost use Rattle.std.specs.Prelude.{◌≡◌, ◌<◌, ◌++◌, ℤ, List, length, slice_get, Some};

use rvc_base::Num;
use std::marker::Model;

/// The tokens of a queue, seen as one list. It borrows the two parts in which the queue keeps them.
#[derive(Drop)]
pub struct Peek<'a> {
    front: &'a [Num],
    back: &'a [Num],
}

impl<'a> Model for Peek<'a> {
    ghost use Rattle.std.specs.Prelude.{ℤ, List, ◌++◌};

    ghost Value = { List ℤ };

    ghost view = { λ p. p.front.now ++ p.back.now };
}

impl<'a> Peek<'a> {
    /// The tokens of `front`, and behind them those of `back`.
    pub fn new(front: &'a [Num], back: &'a [Num]) -> Peek<'a>
        ensures { result ≡ front.now ++ back.now }
    {
        Peek { front, back }
    }

    /// The token at place `k`, counted from 0 at the one that came first.
    pub fn at(&self, k: u32) -> Num
        requires { k < length self.now }
        ensures { slice_get self.now k ≡ Some result }
    {
        let k = k as usize;
        if k < self.front.len() {
            self.front[k]
        } else {
            self.back[k - self.front.len()]
        }
    }
}
