//! Networks and actors by their numbers.

ghost use Rattle.std.specs.Prelude.{◌≡◌, IfSome, map, option_map, slice_get};
ghost use Rattle.fnl_tree.specs.Sound.{IsSound};
ghost use Rattle.fnl_tree.specs.View.{net_of, tree_of};
ghost use Rattle.fnl_flatten.specs.Named.{HasFewEnds, HasFewPorts};
ghost use Rattle.fnl_flatten.specs.View.{head_of, heads_of};
ghost use Rattle.fnl_flatten.specs.Whole.{IsWhole};

use crate::head::Head;
use fnl_tree::{Net, Tree};

/// One of these networks.
fn nth_net<'a>(nets: &'a [Net], net: u32) -> Option<&'a Net>
    ensures { option_map (λ n. net_of n.now) result ≡ slice_get (map net_of nets.now) net }
{
    nets.get(net as usize)
}

/// One of these actors.
fn nth_head<'a>(heads: &'a [Head], leaf: u32) -> Option<&'a Head>
    ensures { option_map (λ h. head_of h.now) result ≡ slice_get (heads_of heads.now) leaf }
{
    heads.get(leaf as usize)
}

/// The network of this number.
pub(crate) fn net_at<'a>(tree: &'a Tree, net: u32) -> Option<&'a Net>
    requires { IsSound (tree_of tree.now) }
    ensures is { option_map (λ n. net_of n.now) result
        ≡ slice_get (map net_of tree.now.nets.items) net }
    ensures few { IfSome result (λ n. HasFewPorts n.now) }
{
    nth_net(&tree.nets, net)
}

/// The ports of the actor at this leaf.
pub(crate) fn head_at<'a>(tree: &Tree, heads: &'a [Head], leaf: u32) -> Option<&'a Head>
    requires { IsWhole (tree_of tree.now) (heads_of heads.now) }
    ensures is { option_map (λ h. head_of h.now) result ≡ slice_get (heads_of heads.now) leaf }
    ensures few { IfSome result (λ h. HasFewEnds h.now) }
{
    nth_head(heads, leaf)
}
