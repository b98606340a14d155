//! Tags, and the actions that they stand for.

ghost use Rattle.std.specs.Prelude.{◌≡◌, ◌≤◌, ◌<◌, IfOk, length, map, string_bytes};
ghost use Rattle.cal_ast.specs.View.{tag_tree};
ghost use Rattle.cal_model.specs.Sound.{max_actions};
ghost use Rattle.cal_model.specs.Tags.{is_prefix_tag, may_be_meant, stands_from};
ghost use Rattle.cal_model.specs.View.{action_view};
ghost use Rattle.cal_check.specs.Actions.{names_listed, tag_parts};
ghost use Rattle.cal_check.specs.Schedules.{stands_somewhere, tags_broken, tags_listed};
ghost use Rattle.check_member.specs.Judging.{Checks};
ghost use Rattle.check_member.specs.Parts.{action_views, idents_tree, tags_tree};
ghost use Rattle.check_member.specs.Targets.{meant_by_tags};

use crate::fault::MemberFault;
use cal_ast::{Ident, Tag};
use cal_model::BoundAction;
use rvc_base::Rule;
use std::alloc::{AllocError, Global};

/// The numbers of the actions that a tag stands for, in text order: those whose tags begin with it, but for an
/// `initialize`.
///
/// # Errors
///
/// `AllocError` if memory runs out.
pub fn actions_meant(
    alloc: Global,
    tag: &Tag,
    actions: &[BoundAction],
) -> Result<Vec<u16>, AllocError>
    requires { length actions.now ≤ max_actions }
    ensures { IfOk result (λ found. found.items
        ≡ stands_from 0 (tag_parts (tag_tree tag.now)) (action_views actions.now)) }
{
    let mut found = Vec::new(alloc);
    let mut number: u16 = 0;
    let mut rest = actions;
    'actions: while let Some((first, others)) = rest.split_first() {
        if may_be_meant(first) && is_prefix(&tag.parts, &first.tag) {
            found.push(number)?;
        }
        number += 1;
        rest = others;
    }
    Ok(found)
}

/// Whether an action has a tag, and isn't an `initialize`.
fn may_be_meant(action: &BoundAction) -> bool
    ensures { result ≡ may_be_meant (action_view action.now) }
{
    !action.initialize && !action.tag.is_empty()
}

/// Whether a tag is a prefix of another by whole components.
fn is_prefix(tag: &[Ident], of: &[String]) -> bool
    ensures { result ≡ is_prefix_tag (names_listed (idents_tree tag.now)) (map string_bytes of.now) }
{
    let mut rest = tag;
    let mut behind = of;
    'parts: while let Some((first, others)) = rest.split_first() {
        let Some((part, more)) = behind.split_first() else {
            return false;
        };
        if first.text.as_str() != part.as_str() {
            return false;
        }
        rest = others;
        behind = more;
    }
    true
}

/// Whether each tag is the prefix of some action's tag.
pub(crate) fn check_tags(tags: &[Tag], actions: &[BoundAction]) -> Result<(), MemberFault>
    ensures { Checks result (tags_broken (tags_tree tags.now) (action_views actions.now)) }
{
    let mut rest = tags;
    'tags: while let Some((first, others)) = rest.split_first() {
        if !stands_somewhere(first, actions) {
            return Err(MemberFault::broken(Rule::UNKNOWN_TAG, first.at));
        }
        rest = others;
    }
    Ok(())
}

/// Whether a tag is the prefix of some action's tag.
fn stands_somewhere(tag: &Tag, actions: &[BoundAction]) -> bool
    ensures { result ≡ stands_somewhere (tag_parts (tag_tree tag.now)) (action_views actions.now) }
{
    let mut rest = actions;
    'actions: while let Some((first, others)) = rest.split_first() {
        if is_prefix(&tag.parts, &first.tag) {
            return true;
        }
        rest = others;
    }
    false
}

/// The numbers of the actions that some of these tags stand for, tag by tag.
pub(crate) fn meant_by_tags(
    alloc: Global,
    tags: &[Tag],
    actions: &[BoundAction],
) -> Result<Vec<u16>, AllocError>
    requires { length actions.now ≤ max_actions }
    ensures { IfOk result (λ found. found.items
        ≡ meant_by_tags (tags_listed (tags_tree tags.now)) (action_views actions.now)) }
{
    let mut found = Vec::new(alloc);
    let mut rest = tags;
    'tags: while let Some((first, others)) = rest.split_first() {
        let meant = actions_meant(alloc, first, actions)?;
        found.extend_from_slice(&meant)?;
        rest = others;
    }
    Ok(found)
}
