//! What orders the actions of an actor: its schedule and its priorities.

ghost use Rattle.std.specs.Prelude.{◌≡◌, ◌≤◌, ℕ, [], IfErr, IfOk, length};
ghost use Rattle.rvc_base.specs.Chain.{IsAbove};
ghost use Rattle.cal_check.specs.Schedules.{first_priority, pairs_in};
ghost use Rattle.cal_model.specs.Actor.{Actor};
ghost use Rattle.cal_model.specs.Sound.{max_actions};
ghost use Rattle.check_member.specs.Judging.{BreaksPriorities};
ghost use Rattle.check_member.specs.Parts.{action_views, members_tree};
ghost use Rattle.check_build_actor.specs.Building.{HasActions, IsOrderOf, order_broken};

use crate::move_list::moves;
use cal_ast::Member;
use cal_model::{BoundAction, BoundMove};
use check_member::{MemberFault, check_priorities, check_schedule, schedule_among};
use std::alloc::Global;

/// What orders the actions of an actor.
#[derive(Drop)]
pub struct ActorOrder {
    /// The names of its states in order of first appearance, the initial one first; none if there is no schedule.
    pub states: Vec<String>,
    /// Where its schedule leads from a state by an action, in text order.
    pub moves: Vec<BoundMove>,
    /// Which action its priorities put above which, in text order. None is above itself.
    pub pairs: Vec<(u16, u16)>,
}

/// What the schedule and the priorities among members make of these actions. `at` is the offset of the actor.
///
/// # Errors
///
/// `Broken`: A3 at a tag that is the prefix of no action's tag, A4 at a transition that sends an action elsewhere than
/// an earlier one does, Z2 at the actor if there are more than 1,024 states, or A5 at the first word `priority` if some
/// action is above itself. `Memory` if memory runs out.
pub fn order(
    alloc: Global,
    members: &[Member],
    actions: &[BoundAction],
    at: u32,
) -> Result<ActorOrder, MemberFault>
    requires { length actions.now ≤ max_actions }
    ensures is { IfOk result (λ order. (actor : Actor)
        → HasActions actor (action_views actions.now) (members_tree members.now)
        → IsOrderOf order (members_tree members.now) actor) }
    ensures fine { IfOk result (λ order. (actor : Actor)
        → HasActions actor (action_views actions.now) (members_tree members.now)
        → order_broken (members_tree members.now) actor at ≡ []) }
    ensures without_cycle { IfOk result (λ order. (a : ℕ) → ¬ IsAbove order.pairs.items a a) }
    ensures broken { IfErr result (λ fault. (actor : Actor)
        → HasActions actor (action_views actions.now) (members_tree members.now)
        → BreaksPriorities (order_broken (members_tree members.now) actor at)
        (pairs_in (members_tree members.now) actor) (first_priority (members_tree members.now)) fault) }
{
    let scheduled = check_schedule(alloc, schedule_among(members), actions, at)?;
    let pairs = check_priorities(alloc, members, actions)?;
    let moves = moves(alloc, &scheduled.moves)?;
    Ok(ActorOrder {
        states: scheduled.states,
        moves,
        pairs,
    })
}
