//! The rates of a static actor.

ghost use Rattle.std.specs.Prelude.{◌≡◌, ◌<◌, IfOk, IfErr, length};
ghost use Rattle.cal_model.specs.Sound.{IsSound};
ghost use Rattle.cal_model.specs.View.{actor_of};
ghost use Rattle.static_rates.specs.Static.{IsStatic, IsCause, AllHaveSameRates, AreNeeds, AreGives};

use crate::actions::{any_guard, any_initialize};
use crate::same::are_alike;
use crate::schedule::has_dead_state;
use cal_model::{Bound, give, need};
use std::alloc::{AllocError, Global};

/// How many tokens each firing of an actor takes from its input ports, and gives on its output ports.
#[derive(Debug, Drop)]
pub struct Rates {
    pub need: Vec<u32>,
    pub give: Vec<u32>,
}

/// What a static actor is asked for.
#[derive(Clone, Copy, Debug, PartialEq, Eq)]
pub enum StaticRule {
    /// It has no `initialize`.
    S1,
    /// No action has a guard.
    S2,
    /// All actions need and give as many tokens on each port.
    S3,
    /// In each state some action is eligible.
    S4,
}

/// Why an actor has no rates.
#[derive(Clone, Copy, Debug, PartialEq, Eq)]
pub enum StaticFault {
    /// It isn't static: this is the first rule that it breaks.
    NotStatic { reason: StaticRule },
    /// An allocation was refused.
    Memory,
}

impl From<AllocError> for StaticFault {
    ghost use Rattle.std.specs.Prelude.{◌≡◌};
    ghost use Rattle.static_rates.specs.declared.static_actor.StaticFault.TheVariants.{Memory};

    ghost from_gives = { λ _ fault. fault ≡ Memory };

    fn from(_refused: AllocError) -> StaticFault {
        StaticFault::Memory
    }
}

/// The rates of an actor that is static. Without actions an actor isn't static.
///
/// # Errors
///
/// `NotStatic` if it isn't static, with the first rule that it breaks (`cause`), and only then (`fixed`). `Memory` if
/// memory runs out.
pub fn rates_of(alloc: Global, b: &Bound) -> Result<Rates, StaticFault>
    requires { IsSound (actor_of b.now) }
    ensures fixed { IfOk result (λ _. IsStatic (actor_of b.now)) }
    ensures need { IfOk result (λ rates. AreNeeds (actor_of b.now) rates.need.items) }
    ensures give { IfOk result (λ rates. AreGives (actor_of b.now) rates.give.items) }
    ensures cause { IfErr result (IsCause (actor_of b.now)) }
{
    if any_initialize(&b.actions) {
        return Err(StaticFault::NotStatic {
            reason: StaticRule::S1,
        });
    }
    if any_guard(&b.actions) {
        return Err(StaticFault::NotStatic {
            reason: StaticRule::S2,
        });
    }
    if !are_alike(b) {
        return Err(StaticFault::NotStatic {
            reason: StaticRule::S3,
        });
    }
    if has_dead_state(b) {
        return Err(StaticFault::NotStatic {
            reason: StaticRule::S4,
        });
    }
    let need = needs_of(alloc, b)?;
    let give = gives_of(alloc, b)?;
    Ok(Rates { need, give })
}

/// How many tokens each firing takes from the input ports.
fn needs_of(alloc: Global, b: &Bound) -> Result<Vec<u32>, AllocError>
    requires sound { IsSound (actor_of b.now) }
    requires some { 0 < length b.now.actions.items }
    requires alike { AllHaveSameRates (actor_of b.now) }
    ensures { IfOk result (λ numbers. AreNeeds (actor_of b.now) numbers.items) }
{
    let mut numbers = Vec::new(alloc);
    for port in 0..b.ins.len() as u32 {
        numbers.push(need(b, 0, port))?;
    }
    Ok(numbers)
}

/// How many tokens each firing gives on the output ports.
fn gives_of(alloc: Global, b: &Bound) -> Result<Vec<u32>, AllocError>
    requires sound { IsSound (actor_of b.now) }
    requires some { 0 < length b.now.actions.items }
    requires alike { AllHaveSameRates (actor_of b.now) }
    ensures { IfOk result (λ numbers. AreGives (actor_of b.now) numbers.items) }
{
    let mut numbers = Vec::new(alloc);
    for port in 0..b.outs.len() as u32 {
        numbers.push(give(b, 0, port))?;
    }
    Ok(numbers)
}
