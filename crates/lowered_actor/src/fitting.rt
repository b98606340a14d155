//! Whether parts fit together.

ghost use Rattle.std.specs.Prelude.{◌≡◌, ℕ, ◌<◌, ◌≤◌, ◌+◌, true, IsTrue, All, length};
ghost use Rattle.code_ir.specs.Code.{is_among};
ghost use Rattle.lowered_actor.specs.Actor.{action_of, actor_of, number_on};
ghost use Rattle.lowered_actor.specs.Facts.{Fits, FitTogether};

use crate::parts::{ActionCode, Parts, StateCell};
use crate::saved::{are_apart, have_sizes};
use code_ir::Admitted;
use priority_order::Order;

impl Parts {
    /// Whether the parts fit together: they are of the same actions, and all numbers are in range.
    pub fn fit(&self) -> bool
        ensures { IsTrue result → FitTogether (actor_of self.now) }
    {
        let actions = self.actions.len();
        if self.fsm.actions() != actions || !ranks(&self.order, actions) {
            return false;
        }
        if self.first.len() != self.code.cells() as usize || self.start >= self.fsm.states() {
            return false;
        }
        if self.kept > self.code.cells() || !are_kept(&self.saved, self.kept) {
            return false;
        }
        if !are_apart(&self.saved) || !have_sizes(&self.saved) {
            return false;
        }
        actions_fit(self)
    }
}

/// Whether an order is of so many actions: each of its line is below this number, and the last of them is there.
fn ranks(order: &Order, actions: usize) -> bool
    ensures { IsTrue result → order.now.count ≡ actions }
{
    let line = order.line();
    let mut last = actions == 0;
    for &action in line {
        if usize::from(action) >= actions {
            return false;
        }
        if usize::from(action) + 1 == actions {
            last = true;
        }
    }
    last
}

/// Whether each of these cells is a state cell.
fn are_kept(saved: &[StateCell], kept: u32) -> bool
    ensures { IsTrue result → All (λ one. one.cell < kept) saved.now }
{
    for &one in saved {
        if one.cell >= kept {
            return false;
        }
    }
    true
}

/// Whether the numbers of each action fit.
fn actions_fit(parts: &Parts) -> bool
    ensures { IsTrue result → All (Fits (actor_of parts.now)) (actor_of parts.now).actions }
{
    for action in &parts.actions {
        if !fits(parts, action) {
            return false;
        }
    }
    true
}

/// Whether the numbers of an action fit.
fn fits(parts: &Parts, action: &ActionCode) -> bool
    ensures { IsTrue result → Fits (actor_of parts.now) (action_of action.now) }
{
    action.needs.len() == parts.ins as usize
        && action.gives.len() == parts.outs as usize
        && action.sends.len() == parts.outs as usize
        && are_entries(&parts.code, &action.guards)
        && parts.code.is_entry(action.fire)
        && cells_fit(parts, action)
}

/// Whether code has each of these entries.
fn are_entries(code: &Admitted, entries: &[u32]) -> bool
    ensures { IsTrue result → All (λ entry. is_among entry code.now.entries ≡ true) entries.now }
{
    for &entry in entries {
        if !code.is_entry(entry) {
            return false;
        }
    }
    true
}

/// Whether the code has the cells of the tokens to send.
fn cells_fit(parts: &Parts, action: &ActionCode) -> bool
    ensures { IsTrue result → (p : ℕ) → p < length action.now.gives.items
        → p < length action.now.sends.items
        → number_on action.now.sends.items p + number_on action.now.gives.items p ≤ parts.now.code.cells }
{
    let cells = u64::from(parts.code.cells());
    for p in 0..action.gives.len() {
        if p < action.sends.len()
            && u64::from(action.sends[p]) + u64::from(action.gives[p]) > cells
        {
            return false;
        }
    }
    true
}
