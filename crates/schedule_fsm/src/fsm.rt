//! The automaton, and what it is built from.

ghost use Rattle.std.specs.Prelude.{◌≡◌, ◌<◌, ◌+◌, ◌*◌, ℕ, ◌↔◌, length, slice_set, All, IfOk, IfErr, OnOk, IsTrue, IsSome, Some};
ghost use Rattle.schedule_fsm.specs.Automaton.{target, entry};
ghost use Rattle.schedule_fsm.specs.Leads.{Leads, IsFree, HasTwoTargets};
ghost use Rattle.schedule_fsm.specs.Fault.{IsCause, IsTaken};

use crate::table::free_moves;
use std::alloc::{AllocError, Global};
use std::marker::Model;

/// A step of the schedule: in state `from`, `action` leads to state `to`.
#[derive(Clone, Copy, Debug, PartialEq, Eq)]
pub struct Step {
    pub from: u16,
    pub action: u16,
    pub to: u16,
}

/// Why steps make no automaton.
#[derive(Clone, Copy, Debug, PartialEq, Eq)]
pub enum FsmFault {
    /// Steps lead from the state by the action to two states.
    Ambiguous { state: u16, action: u16 },
    /// An allocation was refused.
    Memory,
}

impl From<AllocError> for FsmFault {
    ghost use Rattle.std.specs.Prelude.{◌≡◌};
    ghost use Rattle.schedule_fsm.specs.declared.fsm.FsmFault.TheVariants.{Memory};

    ghost from_gives = { λ _ fault. fault ≡ Memory };

    fn from(_refused: AllocError) -> FsmFault {
        FsmFault::Memory
    }
}

/// An automaton of states and actions, both numbered from 0: a table with a row for each state and a column
/// for each action.
#[derive(Debug, Drop)]
pub struct Fsm {
    states: u16,
    actions: usize,
    targets: Vec<Option<u16>>,
}

impl Model for Fsm {
    ghost use Rattle.schedule_fsm.specs.Automaton.{Automaton, IsWhole};

    ghost Value = { Automaton };

    ghost view = { λ fsm. record {
      states = fsm.states;
      actions = fsm.actions;
      targets = fsm.targets.items;
    } };

    ghost invariant = { λ fsm. IsWhole
        (record { states = fsm.states; actions = fsm.actions; targets = fsm.targets.items }) };
}

impl Fsm {
    /// How many states it has.
    pub fn states(&self) -> u16
        ensures { result ≡ self.now.states }
    {
        self.states
    }

    /// How many actions it has.
    pub fn actions(&self) -> usize
        ensures { result ≡ self.now.actions }
    {
        self.actions
    }

    /// Whether `action` is eligible in `state`.
    pub fn eligible(&self, state: u16, action: u16) -> bool
        requires state_in_range { state < self.now.states }
        requires action_in_range { action < self.now.actions }
        ensures { IsTrue result ↔ IsSome (target self.now state action) }
    {
        self.targets[usize::from(state) * self.actions + usize::from(action)].is_some()
    }

    /// The state that follows `state` by `action`.
    pub fn next(&self, state: u16, action: u16) -> u16
        requires state_in_range { state < self.now.states }
        requires action_in_range { action < self.now.actions }
        requires eligible { IsSome (target self.now state action) }
        ensures follows { target self.now state action ≡ Some result }
        ensures in_range { result < self.now.states }
    {
        self.targets[usize::from(state) * self.actions + usize::from(action)].unwrap()
    }
}

/// The automaton of these steps and free actions, with so many states. `free[a]` says that action `a` is
/// eligible in each state and doesn't change it; there are as many actions as `free` has entries.
///
/// States and actions of the steps are in range, and no free action takes a step.
///
/// # Errors
///
/// `Ambiguous` if steps lead from a state by an action to two states, and only then: it names such a state and action
/// (`ambiguous`, `unambiguous`). `Memory` if memory runs out.
pub fn build(alloc: Global, steps: &[Step], free: &[bool], states: u16) -> Result<Fsm, FsmFault>
    requires states_in_range { All (λ step. (step.from < states) × (step.to < states)) steps.now }
    requires actions_in_range { All (λ step. step.action < length free.now) steps.now }
    requires free_take_no_step { All (λ step. ¬ IsFree free.now step.action) steps.now }
    ensures states { IfOk result (λ fsm. fsm.states ≡ states) }
    ensures actions { IfOk result (λ fsm. fsm.actions ≡ length free.now) }
    ensures leads { IfOk result (λ fsm. (state action to : ℕ) → state < states
        → action < length free.now
        → (target fsm state action ≡ Some to) ↔ Leads steps.now free.now state action to) }
    ensures unambiguous { IfOk result
        (λ _. (state action : ℕ) → ¬ HasTwoTargets steps.now state action) }
    ensures ambiguous { IfErr result (IsCause steps.now) }
{
    let mut targets = free_moves(alloc, free, states)?;
    for step in steps {
        add_step(&mut targets, free.len(), *step)?;
    }
    Ok(Fsm {
        states,
        actions: free.len(),
        targets,
    })
}

/// Enters a step into a table with so many columns, unless its action leads from its state to another
/// state already.
fn add_step(targets: &mut [Option<u16>], columns: usize, step: Step) -> Result<(), FsmFault>
    requires { step.from * columns + step.action < length targets.old }
    ensures entered { OnOk result (targets.new
        ≡ slice_set targets.old (step.from * columns + step.action) (Some step.to)) }
    ensures the_same { OnOk result
        ((to : ℕ) → entry columns targets.old step.from step.action ≡ Some to → to ≡ step.to) }
    ensures another { IfErr result
        (IsTaken step (entry columns targets.old step.from step.action)) }
{
    let place = usize::from(step.from) * columns + usize::from(step.action);
    match targets[place] {
        Some(other) if other != step.to => Err(FsmFault::Ambiguous {
            state: step.from,
            action: step.action,
        }),
        _ => {
            targets[place] = Some(step.to);
            Ok(())
        }
    }
}
