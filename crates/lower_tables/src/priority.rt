//! The order of an actor's priorities.

ghost use Rattle.std.specs.Prelude.{IfOk};
ghost use Rattle.cal_model.specs.Sound.{IsSound};
ghost use Rattle.cal_model.specs.View.{actor_of};
ghost use Rattle.lower_tables.specs.Tables.{IsPriority};

use cal_model::Bound;
use priority_order::{Order, OrderFault, close};
use rvc_base::Memory;
use std::alloc::Global;

/// The order of an actor's actions: which is above which, and the line in which they are tried (CAL Language Report,
/// priorities).
///
/// # Errors
///
/// `Memory` if memory runs out.
pub fn order(alloc: Global, b: &Bound) -> Result<Order, Memory>
    requires sound { IsSound (actor_of b.now) }
    ensures priority { IfOk result (IsPriority (actor_of b.now)) }
{
    match close(alloc, &b.pairs, b.actions.len() as u16) {
        Ok(order) => Ok(order),
        Err(OrderFault::Cycle { actions: _ }) => unreachable!(),
        Err(OrderFault::Memory) => Err(Memory),
    }
}
