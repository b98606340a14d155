//! The members of an actor: its schedule, how many actions it has, and which of them are an `initialize`.

ghost use Rattle.std.specs.Prelude.{◌≡◌, ◌∷◌, List, IfErr, IfOk, false, length, nat_le};
ghost use Rattle.rvc_base.specs.Rules.{too_many_actions};
ghost use Rattle.cal_ast.specs.Tree.{Tree};
ghost use Rattle.cal_ast.specs.View.{action_tree};
ghost use Rattle.cal_model.specs.Sound.{max_actions};
ghost use Rattle.cal_check.specs.Actions.{guard_allowed};
ghost use Rattle.cal_check.specs.Actors.{actions_in, initialized_twice};
ghost use Rattle.cal_check.specs.Schedules.{schedule_in};
ghost use Rattle.cal_check.specs.Violations.{unless};
ghost use Rattle.check_member.specs.Judging.{Checks, Refuses};
ghost use Rattle.check_member.specs.Parts.{exprs_tree, members_tree, schedule_view};

use crate::fault::MemberFault;
use cal_ast::{Action, Member, Schedule};
use rvc_base::Rule;

/// The most actions of an actor.
const MAX_ACTIONS: u16 = 256;

/// The schedule among members: the first, if there is one.
pub fn schedule_among(members: &[Member]) -> Option<&Schedule>
    ensures { schedule_view result ≡ schedule_in (members_tree members.now) }
{
    let mut rest = members;
    'members: while let Some((first, others)) = rest.split_first() {
        if let Member::Schedule(schedule) = first {
            return Some(schedule);
        }
        rest = others;
    }
    None
}

/// How many actions are among members, `initialize` included. `at` is the offset of the actor.
///
/// # Errors
///
/// `Broken`: Z2 at the actor if they are more than 256.
pub fn count_actions(members: &[Member], at: u32) -> Result<u16, MemberFault>
    ensures checked { Checks result (unless
        (nat_le (length (actions_in (members_tree members.now))) max_actions) too_many_actions at) }
    ensures count { IfOk result (λ n. n ≡ length (actions_in (members_tree members.now))) }
{
    let mut count = 0;
    let mut rest = members;
    'members: while let Some((first, others)) = rest.split_first() {
        if let Member::Action(_) = first {
            if count == MAX_ACTIONS {
                return Err(MemberFault::broken(Rule::TOO_MANY_ACTIONS, at));
            }
            count += 1;
        }
        rest = others;
    }
    Ok(count)
}

/// Whether at most one action is an `initialize`.
///
/// # Errors
///
/// `Broken`: A6 at the second.
pub fn check_initialize(members: &[Member]) -> Result<(), MemberFault>
    ensures { Checks result (initialized_twice false (actions_in (members_tree members.now))) }
{
    let mut before = false;
    let mut rest = members;
    'members: while let Some((first, others)) = rest.split_first() {
        if let Member::Action(action) = first {
            before = initialize_behind(action, before)?;
        }
        rest = others;
    }
    Ok(())
}

/// Whether an `initialize` stands among actions, the last of which is this one; `before` says so of those before it.
fn initialize_behind(action: &Action, before: bool) -> Result<bool, MemberFault>
    ensures fine { IfOk result (λ now. (more : List Tree) → initialized_twice before (action_tree action.now ∷ more)
        ≡ initialized_twice now more) }
    ensures broken { IfErr result (λ fault. (more : List Tree)
        → Refuses fault (initialized_twice before (action_tree action.now ∷ more))) }
{
    if before && action.initialize {
        return Err(MemberFault::broken(Rule::WRONG_INITIALIZE, action.at));
    }
    Ok(before || action.initialize)
}

/// Whether an action may have the guards that it has: an `initialize` has none.
///
/// # Errors
///
/// `Broken`: A6 at the action.
pub fn check_guards(action: &Action) -> Result<(), MemberFault>
    ensures { Checks result
        (guard_allowed action.now.initialize (exprs_tree action.now.guards.items) action.now.at) }
{
    if action.initialize && !action.guards.is_empty() {
        return Err(MemberFault::broken(Rule::WRONG_INITIALIZE, action.at));
    }
    Ok(())
}
