//! Whether a tree may be flattened.

ghost use Rattle.std.specs.Prelude.{◌≡◌, true};
ghost use Rattle.fnl_tree.specs.Sound.{IsSound};
ghost use Rattle.fnl_tree.specs.View.{tree_of};
ghost use Rattle.fnl_flatten.specs.View.{heads_of};
ghost use Rattle.fnl_flatten.specs.Whole.{IsWhole};
ghost use Rattle.test_fnl_flatten.specs.Tested.{are_nets_fine};
ghost use Rattle.test_fnl_flatten.specs.Walks.{IsNumbered};

use crate::heads::are_heads_fine;
use crate::nets::are_nets_fine;
use crate::walk::{Sizes, walk};
use fnl_flatten::Head;
use fnl_tree::Tree;

/// The most instances, and the top.
const MAX_PLACES: usize = 1025;

/// Whether networks and actors are numbered depth first, each as one part.
fn is_numbered(tree: &Tree) -> bool
    ensures { result ≡ true → IsNumbered (tree_of tree.now) }
{
    let Some((top, inner)) = tree.nets.split_first() else {
        return false;
    };
    let all = Sizes {
        nets: tree.nets.len(),
        leaves: tree.leaves.len(),
    };
    let Some((nets, leaves)) = walk(all, &top.parts, inner, &tree.leaves) else {
        return false;
    };
    nets.is_empty() && leaves.is_empty()
}

/// Whether a tree is sound. No other is taken for one, but one whose networks aren't numbered depth first, as binding
/// numbers them, isn't tested further.
fn is_sound(tree: &Tree) -> bool
    ensures { result ≡ true → IsSound (tree_of tree.now) }
{
    if tree.nets.len() > MAX_PLACES {
        return false;
    }
    if tree.leaves.len() > MAX_PLACES - tree.nets.len() {
        return false;
    }
    if !are_nets_fine(&tree.nets) {
        return false;
    }
    is_numbered(tree)
}

/// Whether a sound tree, such as binding gives, may be flattened over these ports of its actors: there are as many ports
/// as actors, told apart and within their limits.
pub fn heads_fit(tree: &Tree, heads: &[Head]) -> bool
    ensures { result ≡ true → IsSound (tree_of tree.now)
        → IsWhole (tree_of tree.now) (heads_of heads.now) }
{
    if heads.len() != tree.leaves.len() {
        return false;
    }
    are_heads_fine(heads)
}

/// Whether a tree may be flattened over these ports of its actors: it is sound, and there are as many ports as actors,
/// told apart and within their limits.
pub fn is_whole(tree: &Tree, heads: &[Head]) -> bool
    ensures { result ≡ true → IsWhole (tree_of tree.now) (heads_of heads.now) }
{
    heads_fit(tree, heads) && is_sound(tree)
}
