//! What an actor is judged by: its schedule as an automaton, and its priorities as an order.

ghost use Rattle.std.specs.Prelude.{◌≡◌, ◌<◌, ◌≤◌, IfErr, IfOk, length, map, max};
ghost use Rattle.cal_model.specs.Eligible.{eligible, states_of};
ghost use Rattle.cal_model.specs.Sound.{IsSound, max_states};
ghost use Rattle.cal_model.specs.View.{action_view, actor_of};
ghost use Rattle.determinacy_cert.specs.Judging.{IsAutomaton, IsPriority, IsTable, is_free, step_of};

use crate::fault::CertFault;
use cal_model::{Bound, BoundAction, BoundMove};
use priority_order::{Order, OrderFault, close};
use schedule_fsm::{Fsm, FsmFault, Step, build};
use std::alloc::{AllocError, Global};

/// An actor with its automaton and its order.
#[derive(Drop)]
pub(crate) struct Table<'a> {
    pub actor: &'a Bound,
    /// How many actions it has.
    pub actions: u16,
    /// How many states its schedule has. The fresh state of an actor with an `initialize` has this number.
    pub states: u16,
    pub fsm: Fsm,
    pub order: Order,
}

/// The automaton and the order of an actor.
pub(crate) fn make_table<'a>(alloc: Global, actor: &'a Bound) -> Result<Table<'a>, CertFault>
    requires { IsSound (actor_of actor.now) }
    ensures table { IfOk result IsTable }
    ensures same { IfOk result (λ t. actor_of t.actor.now ≡ actor_of actor.now) }
    ensures refused { IfErr result (λ fault. fault ≡ CertFault.Memory) }
{
    let actions = actor.actions.len() as u16;
    let states = state_count(actor.states.len());
    let fsm = automaton(alloc, actor, states)?;
    let order = order(alloc, actor, actions)?;
    Ok(Table {
        actor,
        actions,
        states,
        fsm,
        order,
    })
}

/// How many states a schedule with so many names has: one if it has none.
fn state_count(names: usize) -> u16
    requires { names ≤ max_states }
    ensures { result ≡ max 1 names }
{
    if names == 0 { 1 } else { names as u16 }
}

/// The automaton of an actor's schedule.
fn automaton(alloc: Global, actor: &Bound, states: u16) -> Result<Fsm, CertFault>
    requires sound { IsSound (actor_of actor.now) }
    requires states { states ≡ states_of (actor_of actor.now) }
    ensures automaton { IfOk result (λ fsm. IsAutomaton (actor_of actor.now) fsm) }
    ensures refused { IfErr result (λ fault. fault ≡ CertFault.Memory) }
{
    let steps = steps(alloc, &actor.moves)?;
    let free = free_actions(alloc, &actor.actions, actor.states.is_empty())?;
    match build(alloc, &steps, &free, states) {
        Ok(fsm) => Ok(fsm),
        Err(
            FsmFault::Ambiguous {
                state: _,
                action: _,
            },
        ) => unreachable!(),
        Err(FsmFault::Memory) => Err(CertFault::Memory),
    }
}

/// The steps that the moves are.
fn steps(alloc: Global, moves: &[BoundMove]) -> Result<Vec<Step>, AllocError>
    ensures { IfOk result (λ steps. steps.items ≡ map step_of moves.now) }
{
    let mut steps = Vec::new(alloc);
    for step in moves {
        steps.push(Step {
            from: step.from,
            action: step.action,
            to: step.to,
        })?;
    }
    Ok(steps)
}

/// Which actions are eligible in each state of the schedule and don't change it.
fn free_actions(
    alloc: Global,
    actions: &[BoundAction],
    stateless: bool,
) -> Result<Vec<bool>, AllocError>
    ensures { IfOk result (λ free. free.items
        ≡ map (λ act. is_free stateless (action_view act)) actions.now) }
{
    let mut free = Vec::new(alloc);
    for action in actions {
        free.push(is_free(action, stateless))?;
    }
    Ok(free)
}

/// Whether the action is eligible in each state of the schedule and doesn't change it.
fn is_free(action: &BoundAction, stateless: bool) -> bool
    ensures { result ≡ is_free stateless (action_view action.now) }
{
    !action.initialize && (action.tag.is_empty() || stateless)
}

/// The order that an actor's priorities make.
fn order(alloc: Global, actor: &Bound, actions: u16) -> Result<Order, CertFault>
    requires sound { IsSound (actor_of actor.now) }
    requires actions { actions ≡ length actor.now.actions.items }
    ensures order { IfOk result (λ order. IsPriority (actor_of actor.now) order) }
    ensures refused { IfErr result (λ fault. fault ≡ CertFault.Memory) }
{
    match close(alloc, &actor.pairs, actions) {
        Ok(order) => Ok(order),
        Err(OrderFault::Cycle { actions: _ }) => unreachable!(),
        Err(OrderFault::Memory) => Err(CertFault::Memory),
    }
}

impl Table<'_> {
    /// Whether the action is eligible in a state of the schedule or in the fresh one.
    pub fn eligible(&self, state: u16, action: u16) -> bool
        requires table { IsTable self.now }
        requires state { state ≤ self.now.states }
        requires action { action < self.now.actions }
        ensures { result ≡ eligible (actor_of self.now.actor.now) state action }
    {
        if state == self.states {
            self.actor.actions[usize::from(action)].initialize
        } else {
            self.fsm.eligible(state, action)
        }
    }
}
