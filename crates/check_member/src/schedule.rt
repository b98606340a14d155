//! The schedule of an actor: its states, and where it leads.

ghost use Rattle.std.specs.Prelude.{◌≡◌, ◌≤◌, ◌<◌, ◌++◌, All, IfErr, IfOk, OnOk, Some, [], false, length, map, not, slice_get, string_bytes, true};
ghost use Rattle.rvc_base.specs.Rules.{ambiguous_transition};
ghost use Rattle.cal_ast.specs.View.{move_tree, schedule_tree};
ghost use Rattle.cal_model.specs.Actor.{Actor};
ghost use Rattle.cal_model.specs.Sound.{IsTagged, max_actions, max_states};
ghost use Rattle.cal_model.specs.Tags.{is_seen, moves_by, moves_of, number_of_name};
ghost use Rattle.cal_check.specs.Schedules.{moves_broken, moves_in, moves_listed, some_conflict, states_of, tags_broken, transition_of, transitions_of};
ghost use Rattle.cal_check.specs.Violations.{unless};
ghost use Rattle.check_member.specs.Judging.{Checks, Refuses};
ghost use Rattle.check_member.specs.Parts.{action_views, actor_with, move_of_step, schedule_and_states_broken, schedule_view, tags_tree, transitions_tree};
ghost use Rattle.check_member.specs.Targets.{AreSeen, IsSeen, Tells};

use crate::fault::MemberFault;
use crate::name_index::NameIndex;
use crate::tags::{check_tags, meant_by_tags};
use crate::targets::{conflicts_with, empty_table};
use cal_ast::{Ident, Move, Schedule};
use cal_model::BoundAction;
use rvc_base::{Memory, Rule};
use schedule_fsm::Step;
use std::alloc::{AllocError, Global};

/// The most states of a schedule.
const MAX_STATES: usize = 1024;

/// What a schedule is.
#[derive(Drop)]
pub struct Scheduled {
    /// The names of its states in order of first appearance, the initial one first; none if there is no schedule.
    pub states: Vec<String>,
    /// Where it leads from a state by an action, in text order.
    pub moves: Vec<Step>,
}

/// The states of an actor's schedule, and where it leads. `at` is the offset of the actor.
///
/// # Errors
///
/// `Broken`: A3 at a tag that is the prefix of no action's tag, A4 at a transition that sends an action elsewhere than
/// an earlier one does, or Z2 at the actor if there are more than 1,024 states. `Memory` if memory runs out.
pub fn check_schedule(
    alloc: Global,
    schedule: Option<&Schedule>,
    actions: &[BoundAction],
    at: u32,
) -> Result<Scheduled, MemberFault>
    requires { length actions.now ≤ max_actions }
    ensures checked { (actor : Actor) → actor.actions ≡ action_views actions.now
        → actor.states ≡ states_of (schedule_view schedule.entry)
        → Checks result (schedule_and_states_broken
        (schedule_view schedule.entry) actor at) }
    ensures states { IfOk result (λ s. map string_bytes s.states.items
        ≡ states_of (schedule_view schedule.entry)) }
    ensures moves { IfOk result (λ s. (actor : Actor) → actor.actions ≡ action_views actions.now
        → actor.states ≡ states_of (schedule_view schedule.entry)
        → map move_of_step s.moves.items
        ≡ moves_in (schedule_view schedule.entry) actor) }

    // the steps are such of which an automaton is built
    ensures states_in_range { IfOk result (λ s. All (λ step. (step.from < length s.states.items)
        × (step.to < length s.states.items)) s.moves.items) }
    ensures actions_in_range { IfOk result
        (λ s. All (λ step. step.action < length actions.now) s.moves.items) }
    ensures tagged { IfOk result (λ s. All
        (λ step. IsTagged (slice_get (action_views actions.now) step.action)) s.moves.items) }
{
    match schedule {
        Some(schedule) => of_schedule(alloc, schedule, actions, at),
        None => Ok(Scheduled {
            states: Vec::new(alloc),
            moves: Vec::new(alloc),
        }),
    }
}

/// The states of a schedule, and where it leads.
fn of_schedule(
    alloc: Global,
    schedule: &Schedule,
    actions: &[BoundAction],
    at: u32,
) -> Result<Scheduled, MemberFault>
    requires { length actions.now ≤ max_actions }
    ensures checked { Checks result (schedule_and_states_broken (Some (schedule_tree schedule.now))
        (actor_with (action_views actions.now) (states_of (Some (schedule_tree schedule.now)))) at) }
    ensures states { IfOk result (λ s. map string_bytes s.states.items
        ≡ states_of (Some (schedule_tree schedule.now))) }
    ensures moves { IfOk result (λ s. map move_of_step s.moves.items
        ≡ moves_in (Some (schedule_tree schedule.now))
        (actor_with (action_views actions.now) (states_of (Some (schedule_tree schedule.now))))) }
    ensures states_in_range { IfOk result (λ s. All (λ step. (step.from < length s.states.items)
        × (step.to < length s.states.items)) s.moves.items) }
    ensures actions_in_range { IfOk result
        (λ s. All (λ step. step.action < length actions.now) s.moves.items) }
    ensures tagged { IfOk result (λ s. All
        (λ step. IsTagged (slice_get (action_views actions.now) step.action)) s.moves.items) }
{
    let states = states_of(alloc, schedule)?;
    if states.count() > MAX_STATES {
        return Err(MemberFault::broken(Rule::TOO_MANY_ACTIONS, at));
    }
    let moves = moves_of(alloc, &states, &schedule.moves, actions)?;
    Ok(Scheduled {
        states: copied(alloc, states.names())?,
        moves,
    })
}

/// Equal names in the same order.
fn copied(alloc: Global, names: &[String]) -> Result<Vec<String>, AllocError>
    ensures { IfOk result (λ copied. map string_bytes copied.items ≡ map string_bytes names.now) }
{
    let mut copied = Vec::new(alloc);
    let mut rest = names;
    'names: while let Some((first, others)) = rest.split_first() {
        copied.push(first.clone()?)?;
        rest = others;
    }
    Ok(copied)
}

/// The states of a schedule in order of first appearance.
fn states_of(alloc: Global, schedule: &Schedule) -> Result<NameIndex, Memory>
    ensures states { IfOk result (λ states. states ≡ states_of (Some (schedule_tree schedule.now))) }
    ensures seen { IfOk result (λ states. AreSeen states
        (transitions_of (transitions_tree schedule.now.moves.items))) }
{
    let mut states = NameIndex::new(alloc);
    states.add(schedule.start.text.as_str())?;
    let mut rest = schedule.moves.as_slice();
    'moves: while let Some((first, others)) = rest.split_first() {
        states.add(first.from.text.as_str())?;
        states.add(first.to.text.as_str())?;
        rest = others;
    }
    Ok(states)
}

/// Where transitions lead, over the states that they name.
fn moves_of(
    alloc: Global,
    states: &NameIndex,
    moves: &[Move],
    actions: &[BoundAction],
) -> Result<Vec<Step>, MemberFault>
    requires few_actions { length actions.now ≤ max_actions }
    requires few_states { length states.now ≤ max_states }
    requires seen { AreSeen states.now (transitions_of (transitions_tree moves.now)) }
    ensures checked { Checks result (moves_broken (transitions_tree moves.now) []
        (actor_with (action_views actions.now) states.now)) }
    ensures moves { IfOk result (λ steps. map move_of_step steps.items
        ≡ moves_listed (actor_with (action_views actions.now) states.now)
        (transitions_of (transitions_tree moves.now))) }
{
    let mut steps = Vec::new(alloc);
    let mut targets = empty_table(alloc, states.count(), actions.len())?;
    let mut rest = moves;
    'moves: while let Some((first, others)) = rest.split_first() {
        add_moves(&mut steps, &mut targets, states, first, actions)?;
        rest = others;
    }
    Ok(steps)
}

/// Adds where a transition leads, which no earlier one contradicts. The table has the moves so far.
fn add_moves(
    steps: &mut Vec<Step>,
    targets: &mut [Option<u16>],
    states: &NameIndex,
    transition: &Move,
    actions: &[BoundAction],
) -> Result<(), MemberFault>
    requires few_actions { length actions.now ≤ max_actions }
    requires few_states { length states.now ≤ max_states }
    requires seen { IsSeen states.now (transition_of (move_tree transition.now)) }
    requires told { Tells (length states.now) (length actions.now) targets.old (map move_of_step steps.old.items) }
    ensures tags { OnOk result
        (tags_broken (tags_tree transition.now.tags.items) (action_views actions.now) ≡ []) }
    ensures one_target { OnOk result
        (some_conflict (moves_of (actor_with (action_views actions.now) states.now)
        (transition_of (move_tree transition.now))) (map move_of_step steps.old.items) ≡ false) }
    ensures added { OnOk result (map move_of_step steps.new.items ≡ map move_of_step steps.old.items
        ++ moves_of (actor_with (action_views actions.now) states.now) (transition_of (move_tree transition.now))) }
    ensures told { OnOk result (Tells (length states.now) (length actions.now) targets.new
        (map move_of_step steps.new.items)) }
    ensures broken { IfErr result (λ fault. Refuses fault
        (tags_broken (tags_tree transition.now.tags.items) (action_views actions.now)
        ++ unless (not (some_conflict (moves_of (actor_with (action_views actions.now) states.now)
        (transition_of (move_tree transition.now))) (map move_of_step steps.old.items)))
        ambiguous_transition transition.now.at)) }
    ensures size { length targets.new ≡ length targets.old }
{
    check_tags(&transition.tags, actions)?;
    let meant = meant_by_tags(*steps.allocator(), &transition.tags, actions)?;
    let from = state_number(states, &transition.from);
    let to = state_number(states, &transition.to);
    if conflicts_with(targets, actions.len(), from, &meant, to) {
        return Err(MemberFault::broken(Rule::AMBIGUOUS_TRANSITION, transition.at));
    }
    add_steps(steps, from, &meant, to)?;
    Ok(())
}

/// The number of a state.
fn state_number(states: &NameIndex, name: &Ident) -> u16
    requires few { length states.now ≤ max_states }
    requires seen { is_seen (string_bytes name.now.text) states.now ≡ true }
    ensures number { result ≡ number_of_name (string_bytes name.now.text) states.now }
    ensures in_range { result < length states.now }
{
    states.number(name.text.as_str()) as u16
}

/// Adds a step from one state to another by each of these actions.
fn add_steps(steps: &mut Vec<Step>, from: u16, actions: &[u16], to: u16) -> Result<(), AllocError>
    ensures { OnOk result (map move_of_step steps.new.items
        ≡ map move_of_step steps.old.items ++ moves_by from actions.now to) }
{
    let mut rest = actions;
    'actions: while let Some((first, others)) = rest.split_first() {
        steps.push(Step {
            from,
            action: *first,
            to,
        })?;
        rest = others;
    }
    Ok(())
}
