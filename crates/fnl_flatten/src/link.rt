//! The link that leads to a joint.

ghost use Rattle.std.specs.Prelude.{◌≡◌, [], MatchOption, OnOk, IfOk};
ghost use Rattle.fnl_tree.specs.View.{tree_of};
ghost use Rattle.fnl_flatten.specs.Arrows.{entries_of};
ghost use Rattle.fnl_flatten.specs.Links as spec;
ghost use Rattle.fnl_flatten.specs.Readers.{HasNoEnd, HasNoLink, IsAdded, IsLinkFrom, IsLinkTo, LinksOf};
ghost use Rattle.fnl_flatten.specs.Rules.{violations};
ghost use Rattle.fnl_flatten.specs.View.{heads_of};
ghost use Rattle.fnl_flatten.specs.Whole.{IsWhole};

use crate::head::Head;
use crate::joint::Joint;
use crate::kinds::{kind_of, rate_at};
use crate::link_ends::{reading_end, writing_end};
use crate::origin::origin;
use crate::writers::{Writer, Writers};
use fnl_tree::Tree;
use net_model::Link;
use rvc_base::Memory;
use std::alloc::Global;

/// The capacity of a link whose connections ask for none.
const DEFAULT_CAPACITY: u32 = 512;

/// The capacity of a link: what its connections ask for, and never less than a firing gives or takes at an end.
fn capacity_for(size: u32, gives: u32, takes: u32) -> u32
    ensures { result ≡ spec.capacity_for size gives takes }
{
    let asked = if size == 0 { DEFAULT_CAPACITY } else { size };
    asked.max(gives.max(takes))
}

/// The link that leads to a joint from the writing end at which its chain begins.
fn link_from(tree: &Tree, heads: &[Head], joint: Joint, writer: Writer) -> Option<Link>
    requires { IsWhole (tree_of tree.now) (heads_of heads.now) }
    ensures { MatchOption result (HasNoEnd (tree_of tree.now) (heads_of heads.now) joint writer)
        (IsLinkFrom (tree_of tree.now) (heads_of heads.now) joint writer) }
{
    let from = writing_end(writer.joint)?;
    let to = reading_end(joint)?;
    let kind = kind_of(tree, heads, joint)?;
    let gives = rate_at(tree, heads, writer.joint);
    let takes = rate_at(tree, heads, joint);
    let capacity = capacity_for(writer.size, gives, takes);
    Some(Link {
        from,
        to,
        capacity,
        kind,
    })
}

/// The link that leads to a joint.
fn link_to(tree: &Tree, heads: &[Head], writers: &Writers, joint: Joint) -> Option<Link>
    requires whole { IsWhole (tree_of tree.now) (heads_of heads.now) }
    requires fine { violations (tree_of tree.now) (heads_of heads.now) ≡ [] }
    requires entered { writers.now ≡ entries_of (tree_of tree.now) (heads_of heads.now) }
    ensures { MatchOption result (HasNoLink (tree_of tree.now) (heads_of heads.now) joint)
        (IsLinkTo (tree_of tree.now) (heads_of heads.now) joint) }
{
    let writer = origin(tree, heads, writers, joint)?;
    link_from(tree, heads, joint, writer)
}

/// Adds the link that leads to a joint, if there is one.
fn push_link(
    tree: &Tree,
    heads: &[Head],
    writers: &Writers,
    joint: Joint,
    links: &mut Vec<Link>,
) -> Result<(), Memory>
    requires whole { IsWhole (tree_of tree.now) (heads_of heads.now) }
    requires fine { violations (tree_of tree.now) (heads_of heads.now) ≡ [] }
    requires entered { writers.now ≡ entries_of (tree_of tree.now) (heads_of heads.now) }
    ensures { OnOk result (IsAdded (tree_of tree.now) (heads_of heads.now) joint
        links.old.items links.new.items) }
{
    match link_to(tree, heads, writers, joint) {
        Some(link) => {
            links.push(link)?;
            Ok(())
        }
        None => Ok(()),
    }
}

/// The links that lead to these joints, in their order.
pub(crate) fn links_to(
    alloc: Global,
    tree: &Tree,
    heads: &[Head],
    writers: &Writers,
    joints: &[Joint],
) -> Result<Vec<Link>, Memory>
    requires whole { IsWhole (tree_of tree.now) (heads_of heads.now) }
    requires fine { violations (tree_of tree.now) (heads_of heads.now) ≡ [] }
    requires entered { writers.now ≡ entries_of (tree_of tree.now) (heads_of heads.now) }
    ensures { IfOk result
        (λ links. LinksOf (tree_of tree.now) (heads_of heads.now) joints.now links.items) }
{
    let mut links = Vec::new(alloc);
    let mut rest = joints;
    'joints: while let Some((joint, others)) = rest.split_first() {
        push_link(tree, heads, writers, *joint, &mut links)?;
        rest = others;
    }
    Ok(links)
}
