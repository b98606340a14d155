//! Rules that the members of an actor break besides that something isn't constant.

ghost use Rattle.std.specs.Prelude.{◌≡◌, ◌≤◌, ◌∷◌, ◌++◌, [], IfOk, List, OnOk, length};
ghost use Rattle.cal_ast.specs.Tree as tree;
ghost use Rattle.cal_ast.specs.Tree.{Tree};
ghost use Rattle.cal_ast.specs.View.{action_tree, member_tree};
ghost use Rattle.cal_check.specs.Actions.{Around, action_of};
ghost use Rattle.cal_check.specs.Actors.{actions_in, actions_of};
ghost use Rattle.cal_model.specs.Actor.{Actor as Meaning};
ghost use Rattle.cal_model.specs.Sound.{max_actions, max_ports};
ghost use Rattle.const_env.specs.Counting.{names_view};
ghost use Rattle.check_member.specs.Parts.{action_views, members_tree};
ghost use Rattle.check_action.specs.Parts.{HasFewPorts, around_view};
ghost use Rattle.check_build_actor.specs.Building.{BreaksMembers, FindsOrderOf, FindsOthers, HasActions, IsMembersFault, around_bare, heads_of};

use crate::whole::{BareActor, check_members, fine_order};
use cal_ast::{Action, Actor, Member};
use cal_model::BoundAction;
use check_action::{ActorParts, check_actions};
use check_build_action::tag_parts;
use check_stmt::is_passed;
use const_eval::{KindFault, Names};
use rvc_base::Memory;
use std::alloc::Global;

/// What schedules and priorities see of an action: its tag, and whether it is an `initialize`.
fn head_of(alloc: Global, a: &Action) -> Result<BoundAction, Memory>
    ensures { IfOk result (λ found. (around : Around)
        → heads_of (action_views (found ∷ []))
        ≡ heads_of (action_of (action_tree a.now) around ∷ [])) }
{
    let tag = tag_parts(alloc, &a.tag)?;
    Ok(BoundAction {
        tag,
        patterns: Vec::new(alloc),
        outputs: Vec::new(alloc),
        guards: Vec::new(alloc),
        locals: Vec::new(alloc),
        body: Vec::new(alloc),
        initialize: a.initialize,
    })
}

/// Adds what is seen of a member, if it is an action.
fn add_head(found: &mut Vec<BoundAction>, alloc: Global, member: &Member) -> Result<(), Memory>
    ensures { OnOk result ((more : Tree) (around : Around)
        → heads_of (action_views found.new.items) ++ heads_of (actions_of (actions_in more) around)
        ≡ heads_of (action_views found.old.items)
        ++ heads_of (actions_of (actions_in (tree.cons (member_tree member.now) more)) around)) }
{
    match member {
        Member::Action(a) => push_head(found, alloc, a),
        Member::Var(_) => Ok(()),
        Member::Function(_) => Ok(()),
        Member::Procedure(_) => Ok(()),
        Member::Schedule(_) => Ok(()),
        Member::Priority(_) => Ok(()),
    }
}

/// Adds what is seen of an action.
fn push_head(found: &mut Vec<BoundAction>, alloc: Global, a: &Action) -> Result<(), Memory>
    ensures { OnOk result ((acts : List Tree) (around : Around)
        → heads_of (action_views found.new.items) ++ heads_of (actions_of acts around)
        ≡ heads_of (action_views found.old.items)
        ++ heads_of (actions_of (action_tree a.now ∷ acts) around)) }
{
    let head = head_of(alloc, a)?;
    found.push(head)?;
    Ok(())
}

/// What schedules and priorities see of the actions among members.
fn heads_among(alloc: Global, members: &[Member]) -> Result<Vec<BoundAction>, Memory>
    ensures { IfOk result (λ found. (around : Around) → heads_of (action_views found.items)
        ≡ heads_of (actions_of (actions_in (members_tree members.now)) around)) }
{
    let mut found = Vec::new(alloc);
    let mut rest = members;
    'members: while let Some((first, others)) = rest.split_first() {
        add_head(&mut found, alloc, first)?;
        rest = others;
    }
    Ok(found)
}

/// That what orders the actions among members breaks no rule, if there are few of them. `at` is the offset of the actor.
fn check_order(names: &Names, members: &[Member], at: u32) -> Result<(), KindFault>
    requires { length (actions_in (members_tree members.now)) ≤ max_actions }
    ensures { (actor : Meaning) (around : Around)
        → HasActions actor (actions_of (actions_in (members_tree members.now)) around) (members_tree members.now)
        → FindsOrderOf result (members_tree members.now) actor at }
{
    let heads = heads_among(names.alloc, members)?;
    check_heads(names, members, &heads, at)
}

/// The same, over what is seen of the actions.
fn check_heads(
    names: &Names,
    members: &[Member],
    heads: &[BoundAction],
    at: u32,
) -> Result<(), KindFault>
    requires { length heads.now ≤ max_actions }
    ensures { (actor : Meaning) → HasActions actor (action_views heads.now) (members_tree members.now)
        → FindsOrderOf result (members_tree members.now) actor at }
{
    let _order = fine_order(names, members, heads, at)?;
    Ok(())
}

/// That the members of an actor of these parts break no rule but that something isn't constant.
///
/// # Errors
///
/// As those of [`actor`](crate::actor), but for T9.
pub fn other_members(names: &Names, bare: &BareActor, decl: &Actor) -> Result<(), KindFault>
    requires few_ins { length bare.now.ins.items ≤ max_ports }
    requires few_outs { length bare.now.outs.items ≤ max_ports }
    ensures { (actor : Meaning)
        → HasActions actor (actions_of (actions_in (members_tree decl.now.members.items))
        (around_bare bare.now (names_view names.now))) (members_tree decl.now.members.items)
        → FindsOthers result (members_tree decl.now.members.items)
        (around_bare bare.now (names_view names.now)) actor decl.now.at }
{
    let parts = ActorParts {
        ins: &bare.ins,
        outs: &bare.outs,
        procs: &bare.procs,
    };
    others_among(names, &parts, &decl.members, decl.at)
}

/// The same of members; `at` is the offset of the actor.
fn others_among(
    names: &Names,
    parts: &ActorParts,
    members: &[Member],
    at: u32,
) -> Result<(), KindFault>
    requires { HasFewPorts parts.now }
    ensures { (actor : Meaning)
        → HasActions actor (actions_of (actions_in (members_tree members.now)) (around_view parts.now names.now))
        (members_tree members.now)
        → FindsOthers result (members_tree members.now) (around_view parts.now names.now) actor at }
{
    check_members(members, at)?;
    check_actions(names, parts, members, true)?;
    check_order(names, members, at)
}

/// What is said of a fault of the members of an actor of these parts: where it is that something isn't constant, another
/// rule that they break, if there is one.
pub(crate) fn members_fault(
    names: &Names,
    bare: &BareActor,
    decl: &Actor,
    fault: KindFault,
) -> KindFault
    requires few_ins { length bare.now.ins.items ≤ max_ports }
    requires few_outs { length bare.now.outs.items ≤ max_ports }
    ensures { (actor : Meaning)
        → HasActions actor (actions_of (actions_in (members_tree decl.now.members.items))
        (around_bare bare.now (names_view names.now))) (members_tree decl.now.members.items)
        → BreaksMembers fault (members_tree decl.now.members.items)
        (around_bare bare.now (names_view names.now)) actor decl.now.at
        → IsMembersFault result (members_tree decl.now.members.items)
        (around_bare bare.now (names_view names.now)) actor decl.now.at }
{
    if !is_passed(fault, true) {
        return fault;
    }
    match other_members(names, bare, decl) {
        Ok(()) => fault,
        Err(other) => other,
    }
}
