//! From declared pairs to an order.

ghost use Rattle.std.specs.Prelude.{◌≡◌, ◌<◌, ℕ, ◌↔◌, IfOk, IfErr, IsTrue};
ghost use Rattle.rvc_base.specs.Chain.{IsAbove};
ghost use Rattle.rvc_base.specs.Line.{IsLine};
ghost use Rattle.priority_order.specs.Ranking.{is_above};
ghost use Rattle.priority_order.specs.Closed.{IsInRange};
ghost use Rattle.priority_order.specs.Cycle.{IsCause};

use crate::arrange::arrange;
use crate::cycle::cycle_from;
use crate::order::Order;
use crate::table::{above_itself, closed};
use std::alloc::{AllocError, Global};

/// Why declared pairs make no order.
#[derive(Debug, Drop)]
pub enum OrderFault {
    /// Distinct numbers, the least first, each declared above the next and the last above the first.
    Cycle { actions: Vec<u16> },
    /// An allocation was refused.
    Memory,
}

impl From<AllocError> for OrderFault {
    ghost use Rattle.std.specs.Prelude.{◌≡◌};
    ghost use Rattle.priority_order.specs.declared.closing.OrderFault.TheVariants.{Memory};

    ghost from_gives = { λ _ fault. fault ≡ Memory };

    fn from(_refused: AllocError) -> OrderFault {
        OrderFault::Memory
    }
}

/// The order of the numbers below `n` in which the first of each declared pair is above the second. The
/// pairs are of numbers below `n`.
///
/// # Errors
///
/// `Cycle` if a chain of pairs leads from a number to itself, and only then (`cycle`, `without_cycle`). `Memory` if
/// memory runs out.
pub fn close(alloc: Global, pairs: &[(u16, u16)], n: u16) -> Result<Order, OrderFault>
    requires { IsInRange pairs.now n }
    ensures count { IfOk result (λ order. order.count ≡ n) }
    ensures above { IfOk result (λ order. (a b : ℕ) → a < n → b < n → IsTrue (is_above order a b)
        ↔ IsAbove pairs.now a b) }
    ensures line { IfOk result (λ order. IsLine n (IsAbove pairs.now) order.line) }
    ensures without_cycle { IfOk result (λ _. (a : ℕ) → ¬ IsAbove pairs.now a a) }
    ensures cycle { IfErr result (IsCause pairs.now) }
{
    let cells = closed(alloc, pairs, n)?;
    if let Some(start) = above_itself(&cells, n) {
        let actions = cycle_from(alloc, pairs, &cells, n, start)?;
        return Err(OrderFault::Cycle { actions });
    }
    let line = arrange(alloc, &cells, n)?;
    Ok(Order {
        count: n,
        cells,
        line,
    })
}
