//! The rates of an actor's actions.

ghost use Rattle.std.specs.Prelude.{◌≡◌, ◌<◌, IfOk, length};
ghost use Rattle.cal_model.specs.Sound.{IsSound};
ghost use Rattle.cal_model.specs.View.{actor_of};
ghost use Rattle.lower_tables.specs.Tables.{AreRates, gives_of, needs_of};

use cal_model::{Bound, give, need};
use rvc_base::Memory;
use std::alloc::{AllocError, Global};

/// How many tokens an action takes and sends.
#[derive(Drop)]
pub struct Rates {
    /// From each input port.
    pub needs: Vec<u32>,
    /// On each output port.
    pub gives: Vec<u32>,
}

/// The rates of each action (CAL Language Report, input patterns and output expressions).
///
/// # Errors
///
/// `Memory` if memory runs out.
pub fn action_rates(alloc: Global, b: &Bound) -> Result<Vec<Rates>, Memory>
    requires sound { IsSound (actor_of b.now) }
    ensures rates { IfOk result
        (λ rates. AreRates (actor_of b.now) (length b.now.actions.items) rates.items) }
{
    let mut rates = Vec::new(alloc);
    for action in 0..b.actions.len() as u16 {
        let needs = needs_of(alloc, b, action)?;
        let gives = gives_of(alloc, b, action)?;
        rates.push(Rates { needs, gives })?;
    }
    Ok(rates)
}

/// How many tokens an action takes from each input port.
fn needs_of(alloc: Global, b: &Bound, action: u16) -> Result<Vec<u32>, AllocError>
    requires sound { IsSound (actor_of b.now) }
    requires action { action < length b.now.actions.items }
    ensures { IfOk result (λ needs. needs.items ≡ needs_of (actor_of b.now) action) }
{
    let mut needs = Vec::new(alloc);
    for port in 0..b.ins.len() as u32 {
        needs.push(need(b, action, port))?;
    }
    Ok(needs)
}

/// How many tokens it sends on each output port.
fn gives_of(alloc: Global, b: &Bound, action: u16) -> Result<Vec<u32>, AllocError>
    requires sound { IsSound (actor_of b.now) }
    requires action { action < length b.now.actions.items }
    ensures { IfOk result (λ gives. gives.items ≡ gives_of (actor_of b.now) action) }
{
    let mut gives = Vec::new(alloc);
    for port in 0..b.outs.len() as u32 {
        gives.push(give(b, action, port))?;
    }
    Ok(gives)
}
