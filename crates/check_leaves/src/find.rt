//! The actor that a leaf is, among those that were found.

ghost use Rattle.fnl_tree.specs.View.{leaf_of};
ghost use Rattle.check_leaves.specs.Finding.{IsFound, IsIndex, all_linked, leaves_of};

use crate::alike::give_same;
use crate::first::First;
use crate::newest::Newest;
use fnl_tree::Leaf;

/// The place of the actor whose first leaf is like this one.
pub(crate) fn find(leaf: &Leaf, firsts: &[First], newest: &Newest) -> Option<u32>
    requires { IsIndex newest.now (all_linked firsts.now) }
    ensures { IsFound result (leaves_of (all_linked firsts.now)) (leaf_of leaf.now) }
{
    let mut next = newest.get(leaf.class.as_str());
    'class: while let Some(place) = next {
        let first = firsts[place as usize];
        if give_same(&leaf.bindings, &first.leaf.bindings) {
            return Some(place);
        }
        next = first.earlier;
    }
    None
}
