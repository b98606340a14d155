//! The certification rule, sought through all states.

ghost use Rattle.std.specs.Prelude.{◌≡◌, ◌<◌, ◌≤◌, ◌*◌, ◌&&◌, ◌||◌, true, false, IfErr, IfOk, length, map, replicate};
ghost use Rattle.cal_model.specs.Certified.{IsCertified};
ghost use Rattle.cal_model.specs.Eligible.{eligible, has_initialize};
ghost use Rattle.cal_model.specs.Selection.{Priorities};
ghost use Rattle.cal_model.specs.Sound.{IsSound};
ghost use Rattle.cal_model.specs.View.{action_view, actor_of};
ghost use Rattle.determinacy_cert.specs.Deciding.{needs_no_more};
ghost use Rattle.determinacy_cert.specs.Failing.{action_failures, action_judged, all_pairs_failures, all_states, failures, first, guards_failures, pair_failures, pair_judged, pairs_failures, settled, state_failures};
ghost use Rattle.determinacy_cert.specs.Judging.{Answers, HavePorts, IsCause, IsTable, Knows, above_in, actor_in, failure_if};
ghost use Rattle.determinacy_cert.specs.Viewing.{seen};

use crate::fault::{CertFault, Reason};
use crate::found::Names;
use crate::guards::guards_judged;
use crate::pairing::guards_exclude;
use crate::table::{Table, make_table};
use cal_model::{Bound, BoundAction, BoundPattern, need};
use rvc_base::ActId;
use std::alloc::{AllocError, Global};

/// Where the rule fails.
#[derive(Clone, Copy)]
struct Failure {
    state: u16,
    a: u16,
    b: u16,
    reason: Reason,
}

/// What was found fine already, whatever the state: the guards of actions, and pairs of actions.
#[derive(Drop)]
struct Known {
    tame: Vec<bool>,
    /// A row for each first action.
    fine: Vec<bool>,
}

/// Certifies an actor: whether its guards can't trap and call nothing, and whether of each two actions that are
/// eligible together one outranks the other without needing more tokens, or their guards exclude each other.
///
/// A certified actor is stable, whatever comes later on its ports: what it does it does with more tokens too.
///
/// # Errors
///
/// `Uncertified` names the first failure. States go in order, the fresh one of an actor with an `initialize` last. In
/// each state go first the eligible actions in order, C3 before C4, and then the pairs of them, ordered by `a` and then
/// by `b`. `Memory` means out of memory.
pub fn certify(alloc: Global, b: &Bound) -> Result<(), CertFault>
    requires { IsSound (actor_of b.now) }
    ensures answer { (p : Priorities (actor_of b.now))
        → Answers result (failures (actor_of b.now) p.above) }
    ensures certified { IfOk result (λ _. IsCertified (actor_of b.now)) }
    ensures uncertified { IfErr result (IsCause (actor_of b.now)) }
{
    let table = make_table(alloc, b)?;
    let mut known = nothing_known(alloc, table.actions)?;
    match first_failure(&table, &mut known) {
        None => Ok(()),
        Some(failure) => Err(CertFault::Uncertified {
            state: failure.state,
            a: ActId(failure.a),
            b: ActId(failure.b),
            reason: failure.reason,
        }),
    }
}

/// Nothing is known of so many actions.
fn nothing_known(alloc: Global, actions: u16) -> Result<Known, AllocError>
    ensures tame { IfOk result (λ known. known.tame.items ≡ replicate actions false) }
    ensures fine { IfOk result (λ known. known.fine.items ≡ replicate (actions * actions) false) }
{
    let actions = usize::from(actions);
    Ok(Known {
        tame: vec![in alloc; false; actions]?,
        fine: vec![in alloc; false; actions * actions]?,
    })
}

/// The first failure of all states.
fn first_failure(t: &Table<'_>, known: &mut Known) -> Option<Failure>
    requires table { IsTable t.now }
    requires known { Knows t.now known.old }
    ensures { failure_if result
        ≡ first (failures (actor_in t.now) (above_in t.now)) }
{
    for state in 0..all_states(t) {
        if let Some(failure) = state_failure(t, known, state) {
            return Some(failure);
        }
    }
    None
}

/// How many states there are, with the fresh one of an actor with an `initialize`.
fn all_states(t: &Table<'_>) -> u16
    requires { IsTable t.now }
    ensures { result ≡ all_states (actor_in t.now) }
{
    if has_initialize(&t.actor.actions) {
        t.states + 1
    } else {
        t.states
    }
}

/// Whether one of the actions is an `initialize`.
fn has_initialize(actions: &[BoundAction]) -> bool
    ensures { result ≡ has_initialize (map action_view actions.now) }
{
    for action in actions {
        if action.initialize {
            return true;
        }
    }
    false
}

/// The first failure of a state.
fn state_failure(t: &Table<'_>, known: &mut Known, state: u16) -> Option<Failure>
    requires table { IsTable t.now }
    requires state { state ≤ t.now.states }
    requires known { Knows t.now known.old }
    ensures first { failure_if result
        ≡ first (state_failures (actor_in t.now) (above_in t.now) state) }
    ensures known { Knows t.now known.new }
{
    match actions_failure(t, known, state) {
        Some(failure) => Some(failure),
        None => pairs_failure(t, known, state),
    }
}

/// The first failure of the guards of the eligible actions of a state.
fn actions_failure(t: &Table<'_>, known: &mut Known, state: u16) -> Option<Failure>
    requires table { IsTable t.now }
    requires state { state ≤ t.now.states }
    requires known { Knows t.now known.old }
    ensures first { failure_if result
        ≡ first (guards_failures t.now.actions (actor_in t.now) state) }
    ensures known { Knows t.now known.new }
{
    for a in 0..t.actions {
        if let Some(failure) = action_failure(t, known, state, a) {
            return Some(failure);
        }
    }
    None
}

/// The failure of the guards of an action, if it is eligible.
fn action_failure(t: &Table<'_>, known: &mut Known, state: u16, a: u16) -> Option<Failure>
    requires table { IsTable t.now }
    requires state { state ≤ t.now.states }
    requires action { a < t.now.actions }
    requires known { Knows t.now known.old }
    ensures first { failure_if result
        ≡ first (action_failures (actor_in t.now) state a) }
    ensures known { Knows t.now known.new }
{
    if !t.eligible(state, a) {
        return None;
    }
    let reason = action_judged(t, known, a)?;
    Some(Failure {
        state,
        a,
        b: a,
        reason,
    })
}

/// Why the guards of an action are refused. They are judged once.
fn action_judged(t: &Table<'_>, known: &mut Known, a: u16) -> Option<Reason>
    requires table { IsTable t.now }
    requires action { a < t.now.actions }
    requires known { Knows t.now known.old }
    ensures judged { result ≡ action_judged (actor_in t.now) a }
    ensures known { Knows t.now known.new }
{
    let place = usize::from(a);
    if known.tame[place] {
        return None;
    }
    let judged = guards_judged(Names {
        actor: t.actor,
        action: &t.actor.actions[place],
    });
    known.tame[place] = judged.is_none();
    judged
}

/// The first failure of the pairs of a state.
fn pairs_failure(t: &Table<'_>, known: &mut Known, state: u16) -> Option<Failure>
    requires table { IsTable t.now }
    requires state { state ≤ t.now.states }
    requires known { Knows t.now known.old }
    ensures first { failure_if result
        ≡ first (all_pairs_failures t.now.actions (actor_in t.now) (above_in t.now) state) }
    ensures known { Knows t.now known.new }
{
    for a in 0..t.actions {
        if let Some(failure) = pairs_failure_of(t, known, state, a) {
            return Some(failure);
        }
    }
    None
}

/// The first failure of the pairs of a state whose first action this is.
fn pairs_failure_of(t: &Table<'_>, known: &mut Known, state: u16, a: u16) -> Option<Failure>
    requires table { IsTable t.now }
    requires state { state ≤ t.now.states }
    requires action { a < t.now.actions }
    requires known { Knows t.now known.old }
    ensures first { failure_if result
        ≡ first (pairs_failures (actor_in t.now) (above_in t.now) state a) }
    ensures known { Knows t.now known.new }
{
    if !t.eligible(state, a) {
        return None;
    }
    for b in a + 1..t.actions {
        if let Some(failure) = pair_failure(t, known, state, a, b) {
            return Some(failure);
        }
    }
    None
}

/// The failure of a pair of which the first action is eligible.
fn pair_failure(t: &Table<'_>, known: &mut Known, state: u16, a: u16, b: u16) -> Option<Failure>
    requires table { IsTable t.now }
    requires state { state ≤ t.now.states }
    requires one { a < t.now.actions }
    requires two { b < t.now.actions }
    requires eligible { eligible (actor_in t.now) state a ≡ true }
    requires known { Knows t.now known.old }
    ensures first { failure_if result
        ≡ first (pair_failures (actor_in t.now) (above_in t.now) state a b) }
    ensures known { Knows t.now known.new }
{
    if !t.eligible(state, b) {
        return None;
    }
    let reason = pair_judged(t, known, a, b)?;
    Some(Failure {
        state,
        a,
        b,
        reason,
    })
}

/// Why a pair of actions is refused. It is judged once.
fn pair_judged(t: &Table<'_>, known: &mut Known, a: u16, b: u16) -> Option<Reason>
    requires table { IsTable t.now }
    requires one { a < t.now.actions }
    requires two { b < t.now.actions }
    requires known { Knows t.now known.old }
    ensures judged { result ≡ pair_judged (actor_in t.now) (above_in t.now) a b }
    ensures known { Knows t.now known.new }
{
    let place = usize::from(a) * usize::from(t.actions) + usize::from(b);
    if known.fine[place] {
        return None;
    }
    let judged = two_judged(t, a, b);
    known.fine[place] = judged.is_none();
    judged
}

/// Why a pair of actions is refused.
fn two_judged(t: &Table<'_>, a: u16, b: u16) -> Option<Reason>
    requires table { IsTable t.now }
    requires one { a < t.now.actions }
    requires two { b < t.now.actions }
    ensures { result ≡ pair_judged (actor_in t.now) (above_in t.now) a b }
{
    let one = &t.actor.actions[usize::from(a)];
    let two = &t.actor.actions[usize::from(b)];
    if is_settled(t, a, b, one, two) {
        return None;
    }
    if is_ranked(t, a, b) {
        Some(Reason::C1)
    } else {
        Some(Reason::C2)
    }
}

/// Whether one of these actions, `a` and `b`, is above the other and needs no more, or their guards exclude each other.
fn is_settled(t: &Table<'_>, a: u16, b: u16, one: &BoundAction, two: &BoundAction) -> bool
    requires table { IsTable t.now }
    requires a { a < t.now.actions }
    requires b { b < t.now.actions }
    requires ports { HavePorts (actor_in t.now) (action_view one.now).patterns }
    requires other_ports { HavePorts (actor_in t.now) (action_view two.now).patterns }
    ensures { result ≡ settled (actor_in t.now) (above_in t.now) a b
        (action_view one.now) (action_view two.now) }
{
    if is_modest(t, a, b, &one.patterns) {
        return true;
    }
    if is_modest(t, b, a, &two.patterns) {
        return true;
    }
    guards_exclude(one, two)
}

/// Whether one of both actions is above the other.
fn is_ranked(t: &Table<'_>, a: u16, b: u16) -> bool
    requires table { IsTable t.now }
    requires a { a < t.now.actions }
    requires b { b < t.now.actions }
    ensures { result ≡ (above_in t.now a b || above_in t.now b a) }
{
    if t.order.above(a, b) {
        return true;
    }
    t.order.above(b, a)
}

/// Whether `a` is above `b` and needs no more tokens than it on any port that these patterns name.
fn is_modest(t: &Table<'_>, a: u16, b: u16, patterns: &[BoundPattern]) -> bool
    requires table { IsTable t.now }
    requires one { a < t.now.actions }
    requires two { b < t.now.actions }
    requires ports { HavePorts (actor_in t.now) (seen patterns.now) }
    ensures { result ≡ (above_in t.now a b && needs_no_more (actor_in t.now) a b
        (seen patterns.now)) }
{
    t.order.above(a, b) && needs_no_more(t.actor, a, b, patterns)
}

/// Whether `a` needs no more tokens than `b` on any port that these patterns name.
fn needs_no_more(actor: &Bound, a: u16, b: u16, patterns: &[BoundPattern]) -> bool
    requires sound { IsSound (actor_of actor.now) }
    requires one { a < length actor.now.actions.items }
    requires two { b < length actor.now.actions.items }
    requires ports { HavePorts (actor_of actor.now) (seen patterns.now) }
    ensures { result ≡ needs_no_more (actor_of actor.now) a b (seen patterns.now) }
{
    for pattern in patterns {
        if need(actor, a, pattern.port) > need(actor, b, pattern.port) {
            return false;
        }
    }
    true
}
