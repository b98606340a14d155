//! The automaton of an actor's schedule.

ghost use Rattle.std.specs.Prelude.{◌≡◌, ◌≤◌, ◌++◌, IfOk, OnOk, length, map, max};
ghost use Rattle.cal_model.specs.Eligible.{fresh, has_initialize, start_state};
ghost use Rattle.cal_model.specs.Sound.{IsSound, max_actions, max_states};
ghost use Rattle.cal_model.specs.View.{action_view, actor_of, move_view};
ghost use Rattle.lower_tables.specs.Steps.{all_steps, fixed_from, fixed_target, state_total, step_if, step_of};
ghost use Rattle.lower_tables.specs.Tables.{IsSchedule};

use cal_model::{Bound, BoundAction, BoundMove};
use rvc_base::Memory;
use schedule_fsm::{Fsm, FsmFault, Step, build};
use std::alloc::{AllocError, Global};

/// The automaton of an actor's schedule: in each state it offers the actions that are eligible there, and leads where
/// they lead (CAL Language Report, action schedules).
///
/// The states of the schedule keep their numbers, and without a schedule there is state 0 alone. If the actor has an
/// `initialize`, the last state is the one in which only that may fire. In that state no untagged action is eligible,
/// so none is free in the sense of `schedule_fsm`: each has a step of its own in each other state.
///
/// # Errors
///
/// `Memory` if memory runs out.
pub fn automaton(alloc: Global, b: &Bound) -> Result<Fsm, Memory>
    requires sound { IsSound (actor_of b.now) }
    ensures schedule { IfOk result (IsSchedule (actor_of b.now)) }
{
    let first = state_count(b.states.len());
    let states = state_total(first, has_initialize(&b.actions));
    let steps = steps(alloc, b, first, states)?;
    let free = vec![in alloc; false; b.actions.len()]?;
    match build(alloc, &steps, &free, states) {
        Ok(fsm) => Ok(fsm),
        Err(
            FsmFault::Ambiguous {
                state: _,
                action: _,
            },
        ) => unreachable!(),
        Err(FsmFault::Memory) => Err(Memory),
    }
}

/// The state in which an instance begins: that of the `initialize` if there is one, else the first of the schedule.
pub(crate) fn start_state(b: &Bound) -> u16
    requires sound { IsSound (actor_of b.now) }
    ensures { result ≡ start_state (actor_of b.now) }
{
    if has_initialize(&b.actions) {
        state_count(b.states.len())
    } else {
        0
    }
}

/// How many states a schedule with so many names has: one if it has none.
fn state_count(names: usize) -> u16
    requires { names ≤ max_states }
    ensures { result ≡ max 1 names }
{
    if names == 0 { 1 } else { names as u16 }
}

/// How many states there are with that of the `initialize`, if there is one.
fn state_total(first: u16, begins: bool) -> u16
    requires { first ≤ max_states }
    ensures { result ≡ state_total first begins }
{
    if begins { first + 1 } else { first }
}

/// Whether one of the actions is an `initialize`.
fn has_initialize(actions: &[BoundAction]) -> bool
    ensures { result ≡ has_initialize (map action_view actions.now) }
{
    for action in actions {
        if action.initialize {
            return true;
        }
    }
    false
}

/// The steps from so many states; that of the `initialize` is the first behind those of the schedule.
fn steps(alloc: Global, b: &Bound, first: u16, states: u16) -> Result<Vec<Step>, AllocError>
    requires few { length b.now.actions.items ≤ max_actions }
    requires first { first ≡ fresh (actor_of b.now) }
    ensures { IfOk result (λ steps. steps.items ≡ all_steps (actor_of b.now) states) }
{
    let stateless = b.states.is_empty();
    let mut steps = Vec::new(alloc);
    for state in 0..states {
        put_fixed(&mut steps, &b.actions, state, first, stateless)?;
    }
    put_moves(&mut steps, &b.moves)?;
    Ok(steps)
}

/// Appends the steps from a state that don't come from the moves of the schedule.
fn put_fixed(
    steps: &mut Vec<Step>,
    actions: &[BoundAction],
    state: u16,
    first: u16,
    stateless: bool,
) -> Result<(), AllocError>
    requires few { length actions.now ≤ max_actions }
    ensures { OnOk result (steps.new.items
        ≡ steps.old.items ++ fixed_from first stateless state 0 (map action_view actions.now)) }
{
    let mut number = 0;
    for action in actions {
        let target = fixed_target(action, state, first, stateless);
        put_step(steps, state, number, target)?;
        number += 1;
    }
    Ok(())
}

/// Where an action leads from a state, whatever the moves of the schedule are.
fn fixed_target(action: &BoundAction, state: u16, first: u16, stateless: bool) -> Option<u16>
    ensures { result ≡ fixed_target first stateless state (action_view action.now) }
{
    if state == first {
        return if action.initialize { Some(0) } else { None };
    }
    if !action.initialize && (action.tag.is_empty() || stateless) {
        return Some(state);
    }
    None
}

/// Appends the step of an action from a state, if it leads anywhere.
fn put_step(
    steps: &mut Vec<Step>,
    from: u16,
    action: u16,
    target: Option<u16>,
) -> Result<(), AllocError>
    ensures { OnOk result (steps.new.items ≡ steps.old.items ++ step_if from action target) }
{
    match target {
        Some(to) => {
            steps.push(Step { from, action, to })?;
            Ok(())
        }
        None => Ok(()),
    }
}

/// Appends the moves of a schedule.
fn put_moves(steps: &mut Vec<Step>, moves: &[BoundMove]) -> Result<(), AllocError>
    ensures { OnOk result (steps.new.items
        ≡ steps.old.items ++ map step_of (map move_view moves.now)) }
{
    for step in moves {
        steps.push(Step {
            from: step.from,
            action: step.action,
            to: step.to,
        })?;
    }
    Ok(())
}
