//! Parts gone through depth first.

ghost use Rattle.std.specs.Prelude.{◌≤◌, ◌-◌, ◌<◌, IfSome, length, map};
ghost use Rattle.fnl_tree.specs.View.{leaf_of, net_of, part_of};
ghost use Rattle.test_fnl_flatten.specs.Walks.{Goes};

use fnl_tree::{Inner, Leaf, Net, Part};

/// How many networks and actors a tree has.
#[derive(Clone, Copy)]
pub(crate) struct Sizes {
    pub nets: usize,
    pub leaves: usize,
}

/// Goes through parts depth first, if the networks and actors that they are stand in front of these, numbered in this
/// order. What stands behind them is answered.
pub(crate) fn walk<'a>(
    all: Sizes,
    parts: &[Part],
    nets: &'a [Net],
    leaves: &'a [Leaf],
) -> Option<(&'a [Net], &'a [Leaf])>
    requires nets { length nets.now ≤ all.nets }
    requires leaves { length leaves.now ≤ all.leaves }
    ensures { IfSome result (λ rest. Goes (map part_of parts.now)
        (all.nets - length nets.now) (all.leaves - length leaves.now)
        (map net_of nets.now) (map leaf_of leaves.now)
        (map net_of rest.0.now) (map leaf_of rest.1.now)) }
{
    if parts.is_empty() {
        return Some((nets, leaves));
    }
    let (first, others) = parts.split_first()?;
    match first.inner {
        Inner::Leaf(l) => {
            let (_, behind) = leaves.split_first()?;
            if l.0 as usize != all.leaves - leaves.len() {
                return None;
            }
            walk(all, others, nets, behind)
        }
        Inner::Net(n) => {
            let (inside, behind) = nets.split_first()?;
            if n as usize != all.nets - nets.len() {
                return None;
            }
            let (nets, leaves) = walk(all, &inside.parts, behind, leaves)?;
            walk(all, others, nets, leaves)
        }
    }
}
