//! How many tokens actions take and give.

ghost use Rattle.std.specs.Prelude.{◌≡◌, true};
ghost use Rattle.lowered_actor.specs.Actor.{action_of, number_on};
ghost use Rattle.kit_runs.specs.Fits.{HasFewRates, IsWithin, OfEach, are_few, rate_of};

use lowered_actor::{ActionCode, Lowered};

/// The most tokens that a firing takes from a port, or gives on one.
const MAX_RATE: u32 = 4096;

/// The most actions that are tested.
const MAX_ACTIONS: usize = 65_535;

/// Whether none of these numbers is more than a firing may take or give.
fn are_few(numbers: &[u32]) -> bool
    ensures { result ≡ are_few numbers.now }
{
    let mut rest = numbers;
    'numbers: while let Some((first, others)) = rest.split_first() {
        if *first > MAX_RATE {
            return false;
        }
        rest = others;
    }
    true
}

/// The number for a port, and 0 if there is none.
fn number_on(numbers: &[u32], port: u32) -> u32
    ensures { result ≡ number_on numbers.now port }
{
    match numbers.get(port as usize) {
        Some(number) => *number,
        None => 0,
    }
}

/// What an action gives on a port, or takes from it.
fn rate_of(action: &ActionCode, gives: bool, port: u32) -> u32
    ensures { result ≡ rate_of gives (action_of action.now) port }
{
    if gives {
        number_on(&action.gives, port)
    } else {
        number_on(&action.needs, port)
    }
}

/// Whether no action of an actor takes more from a port, or gives more on one, than a firing may.
#[tactic(auto, using(crate::proofs::Picked::first_more, crate::proofs::Picked::first_all))]
pub(crate) fn has_few_rates(actor: &Lowered) -> bool
    ensures { result ≡ true → HasFewRates actor.now }
{
    if actor.actions() > MAX_ACTIONS {
        return false;
    }
    for a in 0..actor.actions() as u16 {
        let action = actor.action(a);
        if !are_few(&action.needs) {
            return false;
        }
        if !are_few(&action.gives) {
            return false;
        }
    }
    true
}

/// Whether no action gives more on a port, or takes more from it, than this.
#[tactic(auto, using(crate::proofs::Picked::first_more, crate::proofs::Picked::first_all))]
pub(crate) fn are_within(actor: &Lowered, gives: bool, port: u32, capacity: u32) -> bool
    ensures { result ≡ true → OfEach actor.now.actions (IsWithin gives port capacity) }
{
    if actor.actions() > MAX_ACTIONS {
        return false;
    }
    for a in 0..actor.actions() as u16 {
        if rate_of(actor.action(a), gives, port) > capacity {
            return false;
        }
    }
    true
}
