//! Actions.
#![tactic(auto, using(check_stmt::proofs::Checked::refuses_on))]

ghost use Rattle.std.specs.Prelude.{◌≡◌, ◌++◌, IfErr, OnOk};
ghost use Rattle.cal_ast.specs.Tree as tree;
ghost use Rattle.cal_ast.specs.Tree.{Tree};
ghost use Rattle.cal_ast.specs.View.{action_tree, member_tree};
ghost use Rattle.cal_check.specs.Actors.{actions_broken, actions_in, actions_of};
ghost use Rattle.check_member.specs.Parts.{action_views, members_tree};
ghost use Rattle.check_stmt.specs.Judging.{Refuses};
ghost use Rattle.check_action.specs.Parts.{HasFewPorts, around_view};
ghost use Rattle.check_build_action.specs.Building.{BuildsAction, BuildsActions};

use crate::inside::behind_patterns;
use cal_ast::{Action, Member};
use cal_model::BoundAction;
use check_action::{ActorParts, pattern_names, patterns};
use const_eval::{KindFault, Names};

/// The actions among members in text order, as [`action`] builds each.
///
/// # Errors
///
/// As those of [`action`].
pub fn actions(
    names: &Names,
    parts: &ActorParts,
    members: &[Member],
) -> Result<Vec<BoundAction>, KindFault>
    requires { HasFewPorts parts.now }
    ensures { BuildsActions result (actions_in (members_tree members.now))
        (around_view parts.now names.now) }
{
    let mut found = Vec::new(names.alloc);
    let mut rest = members;
    'members: while let Some((first, others)) = rest.split_first() {
        add_member(&mut found, names, parts, first)?;
        rest = others;
    }
    Ok(found)
}

/// Adds a member, if it is an action.
fn add_member(
    found: &mut Vec<BoundAction>,
    names: &Names,
    parts: &ActorParts,
    member: &Member,
) -> Result<(), KindFault>
    requires { HasFewPorts parts.now }
    ensures added { OnOk result ((more : Tree)
        → action_views found.new.items ++ actions_of (actions_in more) (around_view parts.now names.now)
        ≡ action_views found.old.items ++ actions_of (actions_in (tree.cons (member_tree member.now) more))
        (around_view parts.now names.now)) }
    ensures broken { IfErr result (λ fault. (more : Tree) → Refuses fault
        (actions_broken (actions_in (tree.cons (member_tree member.now) more)) (around_view parts.now names.now))) }
{
    match member {
        Member::Action(a) => {
            let next = action(names, parts, a)?;
            found.push(next)?;
            Ok(())
        }
        _ => Ok(()),
    }
}

/// An action, or an `initialize`, with its patterns and outputs on their ports. What it sees is of an actor with these
/// parts and names.
///
/// # Errors
///
/// `Broken` if a pattern, the type of a local or an output breaks a rule: one of those that the action breaks, and its
/// place. `Memory` if memory runs out.
pub fn action(names: &Names, parts: &ActorParts, a: &Action) -> Result<BoundAction, KindFault>
    requires { HasFewPorts parts.now }
    ensures { BuildsAction result (action_tree a.now) (around_view parts.now names.now) }
{
    let taken = patterns(names, parts.ins, &a.patterns)?;
    let seen = pattern_names(names, parts.ins, &taken)?;
    behind_patterns(names, &seen, taken, parts, a)
}
