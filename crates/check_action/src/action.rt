//! Actions.
#![tactic(auto, using(check_stmt::proofs::Said::said_none, check_stmt::proofs::Said::said_on, check_stmt::proofs::Said::said_behind, check_stmt::proofs::Said::said_next))]

ghost use Rattle.cal_ast.specs.View.{action_tree};
ghost use Rattle.const_env.specs.Counting.{names_view};
ghost use Rattle.cal_check.specs.Actions.{action_broken};
ghost use Rattle.cal_check.specs.Actors.{actions_broken, actions_in};
ghost use Rattle.check_member.specs.Parts.{members_tree};
ghost use Rattle.check_stmt.specs.Declaring.{seen_behind};
ghost use Rattle.check_stmt.specs.Judging.{Checks};
ghost use Rattle.cal_check.specs.Violations.{said};
ghost use Rattle.check_action.specs.Parts.{HasFewPorts, around_view, behind_guards, inside_of, rest_of};

use crate::behind::pattern_names;
use crate::guards::{guards, guards_allowed};
use crate::outputs::check_outputs;
use crate::pattern::check_patterns;
use cal_ast::{Action, Member};
use cal_model::Port;
use check_stmt::{Procs, check_vars, optional_stmts};
use const_eval::{Inside, KindFault, Names, Variables};

/// What the actions of an actor see beside names: its ports and its procedures.
#[derive(Clone, Copy)]
pub struct ActorParts<'a> {
    pub ins: &'a [Port],
    pub outs: &'a [Port],
    pub procs: &'a Procs,
}

/// The actions among members, as [`check_action`] judges each. What isn't constant is passed over if `passes`.
///
/// # Errors
///
/// As those of [`check_action`].
pub fn check_actions(
    names: &Names,
    parts: &ActorParts,
    members: &[Member],
    passes: bool,
) -> Result<(), KindFault>
    requires { HasFewPorts parts.now }
    ensures { Checks result (said passes
        (actions_broken (actions_in (members_tree members.now)) (around_view parts.now names.now))) }
{
    let mut rest = members;
    'members: while let Some((first, others)) = rest.split_first() {
        if let Member::Action(a) = first {
            check_action(names, parts, a, passes)?;
        }
        rest = others;
    }
    Ok(())
}

/// An action, or an `initialize`. Nothing behind the patterns is judged if one of them breaks a rule. What isn't constant
/// is passed over if `passes`.
///
/// # Errors
///
/// `Broken` if the action breaks a rule: one of those that it breaks, and its place. `Memory` if memory runs out.
pub fn check_action(
    names: &Names,
    parts: &ActorParts,
    a: &Action,
    passes: bool,
) -> Result<(), KindFault>
    requires { HasFewPorts parts.now }
    ensures { Checks result (said passes
        (action_broken (action_tree a.now) (around_view parts.now names.now))) }
{
    guards_allowed(a)?;
    let Some(found) = check_patterns(names, parts.ins, &a.patterns, passes)? else {
        return Ok(());
    };
    let seen = pattern_names(names, parts.ins, &found)?;
    behind_patterns(names, &seen, parts, a, passes)
}

/// What stands behind the variables of patterns.
fn behind_patterns(
    names: &Names,
    seen: &Variables,
    parts: &ActorParts,
    a: &Action,
    passes: bool,
) -> Result<(), KindFault>
    requires { HasFewPorts parts.now }
    ensures { Checks result (said passes
        (inside_of a.now (around_view parts.now names.now) (seen_behind seen.now names.now))) }
{
    let inside = Inside {
        variables: Some(seen),
        gens: &[],
        outer: names.inner,
    };
    inside_action(&names.under(&inside), parts, a, passes)
}

/// The guards, the locals, and what stands behind these.
fn inside_action(
    names: &Names,
    parts: &ActorParts,
    a: &Action,
    passes: bool,
) -> Result<(), KindFault>
    requires { HasFewPorts parts.now }
    ensures { Checks result (said passes
        (inside_of a.now (around_view parts.now names.now) (names_view names.now))) }
{
    guards(names, &a.guards, passes)?;
    locals_and_rest(names, parts, a, passes)
}

/// The locals, and what stands behind these.
fn locals_and_rest(
    names: &Names,
    parts: &ActorParts,
    a: &Action,
    passes: bool,
) -> Result<(), KindFault>
    requires { HasFewPorts parts.now }
    ensures { Checks result (said passes
        (behind_guards a.now (around_view parts.now names.now) (names_view names.now))) }
{
    let Some(locals) = check_vars(names, &a.vars, passes)? else {
        return Ok(());
    };
    behind_locals(names, &locals, parts, a, passes)
}

/// What stands behind the locals.
fn behind_locals(
    names: &Names,
    locals: &Variables,
    parts: &ActorParts,
    a: &Action,
    passes: bool,
) -> Result<(), KindFault>
    requires { HasFewPorts parts.now }
    ensures { Checks result (said passes (rest_of a.now (around_view parts.now names.now)
        (seen_behind locals.now names.now))) }
{
    let inside = Inside {
        variables: Some(locals),
        gens: &[],
        outer: names.inner,
    };
    body_and_outputs(&names.under(&inside), parts, a, passes)
}

/// The statements and the outputs.
fn body_and_outputs(
    names: &Names,
    parts: &ActorParts,
    a: &Action,
    passes: bool,
) -> Result<(), KindFault>
    requires { HasFewPorts parts.now }
    ensures { Checks result (said passes
        (rest_of a.now (around_view parts.now names.now) (names_view names.now))) }
{
    optional_stmts(names, parts.procs, &a.body, passes)?;
    check_outputs(names, parts.outs, &a.outputs, passes)
}
