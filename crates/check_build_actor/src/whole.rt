//! The whole actor.
#![tactic(auto)]

ghost use Rattle.std.specs.Prelude.{◌≡◌, ◌≤◌, ◌++◌, [], false, IfErr, IfOk, List, length, nat_le};
ghost use Rattle.rvc_base.specs.Rules.{too_many_actions};
ghost use Rattle.cal_ast.specs.View.{actor_tree};
ghost use Rattle.cal_check.specs.Actors.{IsAboveItself, Source, actions_in, actions_of, actor_given, initialized_twice};
ghost use Rattle.cal_check.specs.Variables.{Given, Spot};
ghost use Rattle.cal_check.specs.Violations.{unless};
ghost use Rattle.cal_model.specs.Actor.{Actor as Meaning};
ghost use Rattle.cal_model.specs.Sound.{max_actions, max_ports};
ghost use Rattle.cal_model.specs.View.{actor_of};
ghost use Rattle.const_env.specs.Counting.{names_view};
ghost use Rattle.check_member.specs.Judging.{Checks as MemberChecks};
ghost use Rattle.check_member.specs.Parts.{action_views, members_tree};
ghost use Rattle.check_stmt.specs.Judging.{Checks};
ghost use Rattle.check_action.specs.Faults.{as_kind_fault};
ghost use Rattle.check_action.specs.Parts.{HasFewPorts, around_view};
ghost use Rattle.check_build_actor.specs.Building.{ArePartsOf, FindsActions, FindsActionsOr, FindsOrder, HasActions, IsMembersFault, around_bare, members_broken, whole_view};

use crate::ordering::{ActorOrder, order};
use crate::others::members_fault;
use cal_ast::{Actor, Member};
use cal_model::{Bound, BoundAction, BoundFun, BoundVar, Port};
use check_action::{ActorParts, check_actions};
use check_build_action::actions;
use check_member::{MemberFault, check_initialize, count_actions};
use check_stmt::Procs;
use const_eval::{KindFault, Names};

/// The parts of an actor that stand beside its actions and what orders these.
#[derive(Drop)]
pub struct BareActor {
    /// Its dotted name.
    pub class: String,
    pub ins: Vec<Port>,
    pub outs: Vec<Port>,
    /// The parameters, the constants of units and the state variables, with their values.
    pub vars: Vec<BoundVar>,
    pub funs: Vec<BoundFun>,
    pub procs: Procs,
}

/// The actor of these parts, and of the actions, the schedule and the priorities that are declared in it. Actions see
/// these names.
///
/// # Errors
///
/// `Broken`: one of the rules that its actions, its schedule or its priorities break, with its place; A6 at a second
/// `initialize`, Z2 at the actor if it has more than 256 actions or 1,024 states, or A5 at the first word `priority` if
/// some action is above itself. T9 only if they break nothing else. `Memory` if memory runs out.
pub fn actor(names: &Names, bare: BareActor, decl: &Actor) -> Result<Bound, KindFault>
    requires few_ins { length bare.ins.items ≤ max_ports }
    requires few_outs { length bare.outs.items ≤ max_ports }
    ensures is { IfOk result (λ found. (s : Source) (gs : List Given) (owner : Spot)
        → ArePartsOf bare (actor_tree decl.now) (names_view names.now) s gs owner
        → actor_of found ≡ actor_given s gs owner) }

    // it breaks no rule, and no action is above itself
    ensures fine { IfOk result (λ found. members_broken (members_tree decl.now.members.items)
        (around_bare bare (names_view names.now)) (actor_of found) decl.now.at ≡ []) }
    ensures ordered { IfOk result (λ found. ¬ IsAboveItself (actor_of found)) }
    ensures broken { IfErr result (λ fault. (actor : Meaning)
        → HasActions actor (actions_of (actions_in (members_tree decl.now.members.items))
        (around_bare bare (names_view names.now))) (members_tree decl.now.members.items)
        → IsMembersFault fault (members_tree decl.now.members.items)
        (around_bare bare (names_view names.now)) actor decl.now.at) }
{
    let actions = said_actions(names, &bare, decl)?;
    let order = fine_order(names, &decl.members, &actions, decl.at)?;
    Ok(whole(bare, actions, order))
}

/// The actions that are declared in an actor of these parts, none of which breaks a rule. What isn't constant is a fault
/// only if its members break nothing else.
fn said_actions(
    names: &Names,
    bare: &BareActor,
    decl: &Actor,
) -> Result<Vec<BoundAction>, KindFault>
    requires few_ins { length bare.now.ins.items ≤ max_ports }
    requires few_outs { length bare.now.outs.items ≤ max_ports }
    ensures { FindsActionsOr result (members_tree decl.now.members.items)
        (around_bare bare.now (names_view names.now)) decl.now.at }
{
    match fine_actions(names, bare, decl) {
        Ok(actions) => Ok(actions),
        Err(fault) => Err(members_fault(names, bare, decl, fault)),
    }
}

/// The actions that are declared in an actor of these parts, none of which breaks a rule.
fn fine_actions(
    names: &Names,
    bare: &BareActor,
    decl: &Actor,
) -> Result<Vec<BoundAction>, KindFault>
    requires few_ins { length bare.now.ins.items ≤ max_ports }
    requires few_outs { length bare.now.outs.items ≤ max_ports }
    ensures { FindsActions result (members_tree decl.now.members.items)
        (around_bare bare.now (names_view names.now)) decl.now.at }
{
    let parts = ActorParts {
        ins: &bare.ins,
        outs: &bare.outs,
        procs: &bare.procs,
    };
    actions_among(names, &parts, &decl.members, decl.at)
}

/// The actions among members, none of which breaks a rule; `at` is the offset of the actor.
fn actions_among(
    names: &Names,
    parts: &ActorParts,
    members: &[Member],
    at: u32,
) -> Result<Vec<BoundAction>, KindFault>
    requires { HasFewPorts parts.now }
    ensures { FindsActions result (members_tree members.now) (around_view parts.now names.now) at }
{
    check_members(members, at)?;
    check_actions(names, parts, members, false)?;
    actions(names, parts, members)
}

/// That at most one action is an `initialize`, and that actions aren't too many.
pub(crate) fn check_members(members: &[Member], at: u32) -> Result<(), KindFault>
    ensures { Checks result (initialized_twice false (actions_in (members_tree members.now))
        ++ unless (nat_le (length (actions_in (members_tree members.now))) max_actions)
        too_many_actions at) }
{
    match check_counts(members, at) {
        Ok(()) => Ok(()),
        Err(f) => Err(as_kind_fault(f)),
    }
}

/// The same, with a fault of members.
fn check_counts(members: &[Member], at: u32) -> Result<(), MemberFault>
    ensures { MemberChecks result (initialized_twice false (actions_in (members_tree members.now))
        ++ unless (nat_le (length (actions_in (members_tree members.now))) max_actions)
        too_many_actions at) }
{
    check_initialize(members)?;
    count_actions(members, at)?;
    Ok(())
}

/// What orders these actions, as it is declared among members; `at` is the offset of the actor.
pub(crate) fn fine_order(
    names: &Names,
    members: &[Member],
    actions: &[BoundAction],
    at: u32,
) -> Result<ActorOrder, KindFault>
    requires { length actions.now ≤ max_actions }
    ensures { FindsOrder result (action_views actions.now) (members_tree members.now) at }
{
    match order(names.alloc, members, actions, at) {
        Ok(order) => Ok(order),
        Err(f) => Err(as_kind_fault(f)),
    }
}

/// An actor of its parts, its actions and what orders these.
fn whole(bare: BareActor, actions: Vec<BoundAction>, order: ActorOrder) -> Bound
    ensures { actor_of result ≡ whole_view bare actions.items order }
{
    Bound {
        class: bare.class,
        ins: bare.ins,
        outs: bare.outs,
        vars: bare.vars,
        funs: bare.funs,
        procs: bare.procs.into_list(),
        actions,
        states: order.states,
        moves: order.moves,
        pairs: order.pairs,
    }
}

/// The same fault, as one of kinds.
fn as_kind_fault(f: MemberFault) -> KindFault
    ensures { result ≡ as_kind_fault f }
{
    match f {
        MemberFault::Broken { rule, at } => KindFault::Broken { rule, at },
        MemberFault::Memory => KindFault::Memory,
    }
}
