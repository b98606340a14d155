//! Priorities: which action is declared above which, and the order that this makes.

ghost use Rattle.std.specs.Prelude.{◌≡◌, ◌≤◌, ◌++◌, ℕ, IfErr, IfOk, OnOk, [], length, map};
ghost use Rattle.rvc_base.specs.Chain.{IsAbove};
ghost use Rattle.cal_ast.specs.Tree as tree;
ghost use Rattle.cal_ast.specs.Tree.{Tree};
ghost use Rattle.cal_ast.specs.View.{member_tree};
ghost use Rattle.cal_model.specs.Actor.{Actor};
ghost use Rattle.cal_model.specs.Sound.{max_actions};
ghost use Rattle.cal_model.specs.Tags.{each_above, pairs_of};
ghost use Rattle.cal_check.specs.Schedules.{chains_broken, chains_pairs, first_priority, pairs_in, priorities_broken, tags_listed};
ghost use Rattle.priority_order.specs.Closed.{IsInRange};
ghost use Rattle.check_member.specs.Judging.{BreaksPriorities, Checks, IsCycleAt, Refuses};
ghost use Rattle.check_member.specs.Parts.{action_views, actor_with, chains_tree, members_tree, tags_tree};

use crate::fault::MemberFault;
use crate::tags::{actions_meant, check_tags};
use cal_ast::{Member, Tag};
use cal_model::BoundAction;
use priority_order::{Order, OrderFault, close};
use rvc_base::Rule;
use std::alloc::{AllocError, Global};

/// Which action the priorities among members put above which, by their numbers, in text order. No action is above
/// itself.
///
/// # Errors
///
/// `Broken`: A3 at a tag that is the prefix of no action's tag, or A5 at the first word `priority` if some action is
/// above itself. `Memory` if memory runs out.
pub fn check_priorities(
    alloc: Global,
    members: &[Member],
    actions: &[BoundAction],
) -> Result<Vec<(u16, u16)>, MemberFault>
    requires { length actions.now ≤ max_actions }
    ensures tags { OnOk result
        (priorities_broken (members_tree members.now) (action_views actions.now) ≡ []) }
    ensures without_cycle { IfOk result (λ pairs. (a : ℕ) → ¬ IsAbove pairs.items a a) }
    ensures broken { IfErr result (λ fault. (actor : Actor) → actor.actions ≡ action_views actions.now
        → BreaksPriorities (priorities_broken (members_tree members.now) (action_views actions.now))
        (pairs_in (members_tree members.now) actor) (first_priority (members_tree members.now)) fault) }

    // what stands above what, as an order is made of it
    ensures pairs { IfOk result (λ pairs. (actor : Actor) → actor.actions ≡ action_views actions.now
        → pairs.items ≡ pairs_in (members_tree members.now) actor) }
    ensures in_range { IfOk result (λ pairs. IsInRange pairs.items (length actions.now)) }
{
    let pairs = pairs_of(alloc, members, actions)?;
    order_of(alloc, members, &pairs, actions.len() as u16)?;
    Ok(pairs)
}

/// Which action the priorities among members put above which.
fn pairs_of(
    alloc: Global,
    members: &[Member],
    actions: &[BoundAction],
) -> Result<Vec<(u16, u16)>, MemberFault>
    requires { length actions.now ≤ max_actions }
    ensures checked { Checks result
        (priorities_broken (members_tree members.now) (action_views actions.now)) }
    ensures pairs { IfOk result (λ pairs. (actor : Actor) → actor.actions ≡ action_views actions.now
        → pairs.items ≡ pairs_in (members_tree members.now) actor) }
    ensures in_range { IfOk result (λ pairs. IsInRange pairs.items (length actions.now)) }
{
    let mut pairs = Vec::new(alloc);
    let mut rest = members;
    'members: while let Some((first, others)) = rest.split_first() {
        add_member(&mut pairs, first, actions)?;
        rest = others;
    }
    Ok(pairs)
}

/// Adds what a member puts above what, if it is a priority.
fn add_member(
    pairs: &mut Vec<(u16, u16)>,
    member: &Member,
    actions: &[BoundAction],
) -> Result<(), MemberFault>
    requires { length actions.now ≤ max_actions }
    ensures fine { OnOk result ((more : Tree) → priorities_broken
        (tree.cons (member_tree member.now) more) (action_views actions.now)
        ≡ priorities_broken more (action_views actions.now)) }
    ensures broken { IfErr result (λ fault. (more : Tree) → Refuses fault
        (priorities_broken (tree.cons (member_tree member.now) more) (action_views actions.now))) }
    ensures added { OnOk result ((more : Tree)
        → pairs.new.items ++ pairs_in more (actor_with (action_views actions.now) [])
        ≡ pairs.old.items ++ pairs_in (tree.cons (member_tree member.now) more)
        (actor_with (action_views actions.now) [])) }
{
    match member {
        Member::Priority(priority) => add_chains(pairs, &priority.chains, actions),
        _ => Ok(()),
    }
}

/// Adds what chains put above what.
fn add_chains(
    pairs: &mut Vec<(u16, u16)>,
    chains: &[Vec<Tag>],
    actions: &[BoundAction],
) -> Result<(), MemberFault>
    requires { length actions.now ≤ max_actions }
    ensures checked { Checks result
        (chains_broken (chains_tree chains.now) (action_views actions.now)) }
    ensures added { OnOk result (pairs.new.items ≡ pairs.old.items
        ++ chains_pairs (chains_tree chains.now) (actor_with (action_views actions.now) [])) }
{
    let mut rest = chains;
    'chains: while let Some((first, others)) = rest.split_first() {
        check_tags(first, actions)?;
        add_chain(pairs, first, actions)?;
        rest = others;
    }
    Ok(())
}

/// Adds what a chain puts above what: each action that a tag stands for above each that the next one stands for.
fn add_chain(
    pairs: &mut Vec<(u16, u16)>,
    tags: &[Tag],
    actions: &[BoundAction],
) -> Result<(), AllocError>
    requires { length actions.now ≤ max_actions }
    ensures { OnOk result (pairs.new.items ≡ pairs.old.items
        ++ pairs_of (actor_with (action_views actions.now) []) (tags_listed (tags_tree tags.now))) }
{
    let Some((first, others)) = tags.split_first() else {
        return Ok(());
    };
    let mut higher = actions_meant(*pairs.allocator(), first, actions)?;
    let mut rest = others;
    'tags: while let Some((next, behind)) = rest.split_first() {
        let lower = actions_meant(*pairs.allocator(), next, actions)?;
        add_above(pairs, &higher, &lower)?;
        higher = lower;
        rest = behind;
    }
    Ok(())
}

/// Adds each of the ones above each of the others.
fn add_above(pairs: &mut Vec<(u16, u16)>, higher: &[u16], lower: &[u16]) -> Result<(), AllocError>
    ensures { OnOk result (pairs.new.items ≡ pairs.old.items ++ each_above higher.now lower.now) }
{
    let mut rest = higher;
    'higher: while let Some((first, others)) = rest.split_first() {
        add_below(pairs, *first, lower)?;
        rest = others;
    }
    Ok(())
}

/// Adds an action above each of the others.
fn add_below(pairs: &mut Vec<(u16, u16)>, action: u16, lower: &[u16]) -> Result<(), AllocError>
    ensures { OnOk result (pairs.new.items ≡ pairs.old.items ++ map (λ b. (action, b)) lower.now) }
{
    let mut rest = lower;
    'lower: while let Some((first, others)) = rest.split_first() {
        pairs.push((action, *first))?;
        rest = others;
    }
    Ok(())
}

/// The order that pairs of the priorities among members make of so many actions, none of which is above itself.
fn order_of(
    alloc: Global,
    members: &[Member],
    pairs: &[(u16, u16)],
    actions: u16,
) -> Result<Order, MemberFault>
    requires in_range { IsInRange pairs.now actions }
    requires from_members { (actor : Actor) × (pairs.now ≡ pairs_in (members_tree members.now) actor) }
    ensures without_cycle { IfOk result (λ _. (a : ℕ) → ¬ IsAbove pairs.now a a) }
    ensures cycle { IfErr result
        (IsCycleAt pairs.now (first_priority (members_tree members.now))) }
{
    match close(alloc, pairs, actions) {
        Ok(order) => Ok(order),
        Err(OrderFault::Cycle { actions: _ }) => match first_priority(members) {
            Some(at) => Err(MemberFault::broken(Rule::PRIORITY_CYCLE, at)),
            None => unreachable!(),
        },
        Err(OrderFault::Memory) => Err(MemberFault::Memory),
    }
}

/// The first word `priority` among members.
fn first_priority(members: &[Member]) -> Option<u32>
    ensures { result ≡ first_priority (members_tree members.now) }
{
    let mut rest = members;
    'members: while let Some((first, others)) = rest.split_first() {
        if let Member::Priority(priority) = first {
            return Some(priority.at);
        }
        rest = others;
    }
    None
}
