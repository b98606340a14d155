//! Where a connection begins and ends.

ghost use Rattle.std.specs.Prelude.{◌≡◌, Some, map};
ghost use Rattle.fnl_tree.specs.View.{inner_of, net_of, part_of, tree_of, wire_of};
ghost use Rattle.fnl_flatten.specs.Joints as joints;
ghost use Rattle.fnl_flatten.specs.Named.{HasFewEnds, HasFewPorts, NameAlike};
ghost use Rattle.fnl_flatten.specs.View.{head_of, heads_of};
ghost use Rattle.fnl_flatten.specs.Whole.{IsWhole};

use crate::find::{head_at, net_at};
use crate::head::Head;
use crate::joint::Joint;
use crate::names::{head_port, own_port};
use crate::part_names::PartNames;
use fnl_tree::{Inner, Net, Tree, Wire};

/// Whether no instance is named.
pub(crate) fn is_nameless(name: &str) -> bool
    ensures { result ≡ joints.is_nameless name.now }
{
    name.is_empty()
}

/// A network's own input of this name.
fn own_input(number: u32, net: &Net, name: &str) -> Option<Joint>
    requires { HasFewPorts net.now }
    ensures { result ≡ joints.own_input number (net_of net.now) name.now }
{
    let port = own_port(&net.ins, name)?;
    Some(Joint::Own {
        net: number,
        input: true,
        port,
    })
}

/// A network's own output of this name.
fn own_output(number: u32, net: &Net, name: &str) -> Option<Joint>
    requires { HasFewPorts net.now }
    ensures { result ≡ joints.own_output number (net_of net.now) name.now }
{
    let port = own_port(&net.outs, name)?;
    Some(Joint::Own {
        net: number,
        input: false,
        port,
    })
}

/// An actor's input of this name.
fn actor_input(leaf: u32, head: &Head, name: &str) -> Option<Joint>
    requires { HasFewEnds head.now }
    ensures { result ≡ joints.leaf_input leaf (Some (head_of head.now)) name.now }
{
    let port = head_port(&head.ins, name)?;
    Some(Joint::Leaf {
        leaf,
        input: true,
        port,
    })
}

/// An actor's output of this name.
fn actor_output(leaf: u32, head: &Head, name: &str) -> Option<Joint>
    requires { HasFewEnds head.now }
    ensures { result ≡ joints.leaf_output leaf (Some (head_of head.now)) name.now }
{
    let port = head_port(&head.outs, name)?;
    Some(Joint::Leaf {
        leaf,
        input: false,
        port,
    })
}

/// The input of this name of an instance.
fn part_input(tree: &Tree, heads: &[Head], inner: Inner, name: &str) -> Option<Joint>
    requires { IsWhole (tree_of tree.now) (heads_of heads.now) }
    ensures { result ≡ joints.part_input (tree_of tree.now) (heads_of heads.now)
        (Some (inner_of inner)) name.now }
{
    match inner {
        Inner::Net(number) => own_input(number, net_at(tree, number)?, name),
        Inner::Leaf(leaf) => actor_input(leaf.0, head_at(tree, heads, leaf.0)?, name),
    }
}

/// The output of this name of an instance.
fn part_output(tree: &Tree, heads: &[Head], inner: Inner, name: &str) -> Option<Joint>
    requires { IsWhole (tree_of tree.now) (heads_of heads.now) }
    ensures { result ≡ joints.part_output (tree_of tree.now) (heads_of heads.now)
        (Some (inner_of inner)) name.now }
{
    match inner {
        Inner::Net(number) => own_output(number, net_at(tree, number)?, name),
        Inner::Leaf(leaf) => actor_output(leaf.0, head_at(tree, heads, leaf.0)?, name),
    }
}

/// Where a connection begins.
pub(crate) fn source(
    tree: &Tree,
    heads: &[Head],
    number: u32,
    net: &Net,
    names: &PartNames,
    wire: &Wire,
) -> Option<Joint>
    requires whole { IsWhole (tree_of tree.now) (heads_of heads.now) }
    requires few { HasFewPorts net.now }
    requires named { NameAlike names.now (map part_of net.now.parts.items) }
    ensures { result ≡ joints.source (tree_of tree.now) (heads_of heads.now) number
        (net_of net.now) (wire_of wire.now) }
{
    if is_nameless(wire.src.as_str()) {
        return own_input(number, net, wire.src_port.as_str());
    }
    let inner = names.get(wire.src.as_str())?;
    part_output(tree, heads, inner, wire.src_port.as_str())
}

/// Where a connection ends.
pub(crate) fn target(
    tree: &Tree,
    heads: &[Head],
    number: u32,
    net: &Net,
    names: &PartNames,
    wire: &Wire,
) -> Option<Joint>
    requires whole { IsWhole (tree_of tree.now) (heads_of heads.now) }
    requires few { HasFewPorts net.now }
    requires named { NameAlike names.now (map part_of net.now.parts.items) }
    ensures { result ≡ joints.target (tree_of tree.now) (heads_of heads.now) number
        (net_of net.now) (wire_of wire.now) }
{
    if is_nameless(wire.dst.as_str()) {
        return own_output(number, net, wire.dst_port.as_str());
    }
    let inner = names.get(wire.dst.as_str())?;
    part_input(tree, heads, inner, wire.dst_port.as_str())
}
