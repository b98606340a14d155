//! Whether the parts of a lowered actor keep the facts of guards and firings.

ghost use Rattle.std.specs.Prelude.{◌≡◌, ◌<◌, [], IfOk, IsTrue, Some, false, length, true};
ghost use Rattle.lowered_actor.specs.Actor.{action_of, actor_of};
ghost use Rattle.lowered_actor.specs.Facts.{Fits, FitTogether, RunRight};
ghost use Rattle.lower_scratch.specs.declared.body.Body.{Body as DeclaredBody};
ghost use Rattle.lower_scratch.specs.Fitting.{AreRoutines, HasBodies, HasBody, IsRoutine};

use crate::bodies::{fits_body, sends};
use crate::body::{Body, Last, none_is_set};
use crate::finding::body_at;
use code_ir::laws::has_one_end;
use lowered_actor::{ActionCode, Parts};
use std::alloc::{AllocError, Global};

/// Whether it is seen that each guard and each firing of the parts keeps the facts of lowered actors. Code that fills a
/// list item by item and has no instruction that sets the list before isn't seen to keep them, nor is a body with
/// several ends. If there are no actions, it is seen.
///
/// # Errors
///
/// If memory runs out.
pub fn keep_facts(alloc: Global, parts: &Parts) -> Result<bool, AllocError>
    requires fits { FitTogether (actor_of parts.now) }
    ensures right { IfOk result (λ keep. IsTrue keep → RunRight (actor_of parts.now)) }
    ensures none { (actor_of parts.now).actions ≡ [] → IfOk result (λ keep. IsTrue keep) }
{
    // it tells that a run has one end
    has_one_end();
    let called_by_guards = routines_of(alloc, parts, false)?;
    let called_by_firings = routines_of(alloc, parts, true)?;
    for action in &parts.actions {
        let keeps = keeps_action(alloc, parts, &called_by_guards, &called_by_firings, action)?;
        if !keeps {
            return Ok(false);
        }
    }
    Ok(true)
}

/// The bodies of the routines that are seen to keep the facts, as part of a firing or of a guard.
fn routines_of(alloc: Global, parts: &Parts, firing: bool) -> Result<Vec<Option<Body>>, AllocError>
    ensures { IfOk result (λ routines. AreRoutines (actor_of parts.now) firing routines.items) }
{
    let mut routines = Vec::new(alloc);
    for r in 0..parts.code.routines().len() {
        let body = routine_at(alloc, parts, firing, &routines, r)?;
        routines.push(body)?;
    }
    Ok(routines)
}

/// The body of a routine, if it is seen to keep the facts.
fn routine_at(
    alloc: Global,
    parts: &Parts,
    firing: bool,
    routines: &[Option<Body>],
    r: usize,
) -> Result<Option<Body>, AllocError>
    requires { r < length (actor_of parts.now).code.routines }
    ensures { IfOk result (λ found. (body : DeclaredBody) → found ≡ Some body
        → IsRoutine (actor_of parts.now) routines.now firing r body) }
{
    let begin = parts.code.routines()[r].start as usize;
    let body = body_at(alloc, parts, routines, begin)?;
    if fits_body(parts, routines, firing, &[], Last::Return, &body) {
        Ok(Some(body))
    } else {
        Ok(None)
    }
}

/// Whether the guards and the firing of an action are seen to keep the facts.
fn keeps_action(
    alloc: Global,
    parts: &Parts,
    called_by_guards: &[Option<Body>],
    called_by_firings: &[Option<Body>],
    action: &ActionCode,
) -> Result<bool, AllocError>
    requires fits { Fits (actor_of parts.now) (action_of action.now) }
    requires guards { AreRoutines (actor_of parts.now) false called_by_guards.now }
    requires firings { AreRoutines (actor_of parts.now) true called_by_firings.now }
    ensures { IfOk result (λ keeps. IsTrue keeps
        → HasBodies (actor_of parts.now) (action_of action.now)) }
{
    for &entry in &action.guards {
        let keeps = keeps_guard(alloc, parts, called_by_guards, action, entry)?;
        if !keeps {
            return Ok(false);
        }
    }
    keeps_firing(alloc, parts, called_by_firings, action)
}

/// Whether the guard at an entry is seen to keep the facts.
fn keeps_guard(
    alloc: Global,
    parts: &Parts,
    routines: &[Option<Body>],
    action: &ActionCode,
    entry: u32,
) -> Result<bool, AllocError>
    requires are { AreRoutines (actor_of parts.now) false routines.now }
    ensures { IfOk result (λ keeps. IsTrue keeps
        → HasBody (actor_of parts.now) (action_of action.now) false entry) }
{
    let body = body_at(alloc, parts, routines, entry as usize)?;
    if !none_is_set(parts.kept, &body, body.begin) {
        return Ok(false);
    }
    Ok(fits_body(parts, routines, false, &action.needs, Last::Answer, &body))
}

/// Whether the firing of an action is seen to keep the facts.
fn keeps_firing(
    alloc: Global,
    parts: &Parts,
    routines: &[Option<Body>],
    action: &ActionCode,
) -> Result<bool, AllocError>
    requires fits { Fits (actor_of parts.now) (action_of action.now) }
    requires are { AreRoutines (actor_of parts.now) true routines.now }
    ensures { IfOk result (λ keeps. IsTrue keeps
        → HasBody (actor_of parts.now) (action_of action.now) true (action_of action.now).fire) }
{
    let body = body_at(alloc, parts, routines, action.fire as usize)?;
    if !none_is_set(parts.kept, &body, body.begin) {
        return Ok(false);
    }
    if !fits_body(parts, routines, true, &action.needs, Last::Done, &body) {
        return Ok(false);
    }
    Ok(sends(parts, action, &body))
}
