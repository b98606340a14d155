//! The order.

ghost use Rattle.std.specs.Prelude.{◌≡◌, ◌<◌, ℕ, length, take, slice_index, IsTrue, All, AllPairs, Contains, ◌≢◌};

use std::marker::Model;

/// An order of the numbers below a count: which of them is above which, and their line.
#[derive(Debug, Drop)]
pub struct Order {
    pub(crate) count: u16,
    pub(crate) cells: Vec<bool>,
    pub(crate) line: Vec<u16>,
}

impl Model for Order {
    ghost use Rattle.priority_order.specs.Ranking.{Ranking, IsOrder};

    ghost Value = { Ranking };

    ghost view = { λ order. record
        { count = order.count; cells = order.cells.items; line = order.line.items } };

    ghost invariant = { λ order. IsOrder
        (record { count = order.count; cells = order.cells.items; line = order.line.items }) };
}

impl Order {
    ghost use Rattle.priority_order.specs.Ranking.{is_above};
    ghost use Rattle.rvc_base.specs.Line.{IsLine};

    /// Whether `a` is above `b`: whether a chain of the declared pairs leads from `a` to `b`.
    pub fn above(&self, a: u16, b: u16) -> bool
        requires a_in_range { a < self.now.count }
        requires b_in_range { b < self.now.count }
        ensures answer { result ≡ is_above self.now a b }
        ensures not_itself { a ≡ b → ¬ IsTrue result }
        ensures carries { IsTrue result → (c : ℕ) → c < self.now.count
            → IsTrue (is_above self.now b c) → IsTrue (is_above self.now a c) }
    {
        self.cells[usize::from(a) * usize::from(self.count) + usize::from(b)]
    }

    /// The numbers, each after all that are above it: at each place the least that may stand there.
    pub fn line(&self) -> &[u16]
        ensures value { result.now ≡ self.now.line }
        ensures in_range { All (λ a. a < self.now.count) result.now }
        ensures each { (a : ℕ) → a < self.now.count → Contains result.now a }
        ensures once { AllPairs (λ a b. a ≢ b) result.now }
        ensures after { (k a : ℕ) → k < length result.now → a < self.now.count
            → IsTrue (is_above self.now a (slice_index result.now k))
            → Contains (take k result.now) a }
        ensures least { IsLine self.now.count (λ a b. IsTrue (is_above self.now a b)) result.now }
    {
        self.line.as_slice()
    }
}
