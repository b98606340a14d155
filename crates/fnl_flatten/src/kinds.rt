//! Types and rates of ports.

ghost use Rattle.std.specs.Prelude.{◌≡◌, Some, map, slice_get};
ghost use Rattle.fnl_tree.specs.View.{net_of, own_of, tree_of};
ghost use Rattle.fnl_flatten.specs.Joints as joints;
ghost use Rattle.fnl_flatten.specs.Rules as rules;
ghost use Rattle.fnl_flatten.specs.View.{head_of, head_port_of, heads_of};
ghost use Rattle.fnl_flatten.specs.Whole.{IsWhole};

use crate::find::{head_at, net_at};
use crate::head::{Head, HeadPort};
use crate::joint::Joint;
use fnl_tree::{Net, NetEnd, Tree};
use rvc_base::Scalar;

/// The type of one of these ports.
fn own_kind(ports: &[NetEnd], port: u32) -> Option<Scalar>
    ensures { result ≡ joints.own_kind (slice_get (map own_of ports.now) port) }
{
    let end = ports.get(port as usize)?;
    Some(end.kind)
}

/// The type of one of these ports.
fn end_kind(ports: &[HeadPort], port: u32) -> Option<Scalar>
    ensures { result ≡ joints.head_kind (slice_get (map head_port_of ports.now) port) }
{
    let end = ports.get(port as usize)?;
    Some(end.kind)
}

/// The most tokens that a firing takes or gives at one of these ports.
fn end_rate(ports: &[HeadPort], port: u32) -> u32
    ensures { result ≡ joints.rate_of (slice_get (map head_port_of ports.now) port) }
{
    match ports.get(port as usize) {
        Some(end) => end.largest,
        None => 0,
    }
}

/// The type of a network's own port.
fn net_kind(net: &Net, input: bool, port: u32) -> Option<Scalar>
    ensures { result ≡ joints.net_kind input port (Some (net_of net.now)) }
{
    if input {
        own_kind(&net.ins, port)
    } else {
        own_kind(&net.outs, port)
    }
}

/// The type of an actor's port.
fn actor_kind(head: &Head, input: bool, port: u32) -> Option<Scalar>
    ensures { result ≡ joints.leaf_kind input port (Some (head_of head.now)) }
{
    if input {
        end_kind(&head.ins, port)
    } else {
        end_kind(&head.outs, port)
    }
}

/// The most tokens that a firing takes or gives at an actor's port.
fn actor_rate(head: &Head, input: bool, port: u32) -> u32
    ensures { result ≡ joints.leaf_rate input port (Some (head_of head.now)) }
{
    if input {
        end_rate(&head.ins, port)
    } else {
        end_rate(&head.outs, port)
    }
}

/// The type of a port.
pub(crate) fn kind_of(tree: &Tree, heads: &[Head], joint: Joint) -> Option<Scalar>
    requires { IsWhole (tree_of tree.now) (heads_of heads.now) }
    ensures { result ≡ joints.kind_of (tree_of tree.now) (heads_of heads.now) joint }
{
    match joint {
        Joint::Leaf { leaf, input, port } => actor_kind(head_at(tree, heads, leaf)?, input, port),
        Joint::Own { net, input, port } => net_kind(net_at(tree, net)?, input, port),
    }
}

/// The most tokens that a firing takes or gives at a port: none at a network's.
pub(crate) fn rate_at(tree: &Tree, heads: &[Head], joint: Joint) -> u32
    requires { IsWhole (tree_of tree.now) (heads_of heads.now) }
    ensures { result ≡ joints.rate_at (heads_of heads.now) joint }
{
    match joint {
        Joint::Leaf { leaf, input, port } => match head_at(tree, heads, leaf) {
            Some(head) => actor_rate(head, input, port),
            None => 0,
        },
        Joint::Own { .. } => 0,
    }
}

/// Whether it is the type of truth values.
fn is_bool(kind: Scalar) -> bool
    ensures { result ≡ rules.is_bool kind }
{
    match kind {
        Scalar::Bool => true,
        Scalar::Int(_) | Scalar::Uint(_) => false,
    }
}

/// Whether both are truth values, or both numbers.
pub(crate) fn meet(from: Option<Scalar>, to: Option<Scalar>) -> bool
    ensures { result ≡ rules.meet from to }
{
    match (from, to) {
        (Some(from), Some(to)) => {
            if is_bool(from) {
                is_bool(to)
            } else {
                !is_bool(to)
            }
        }
        _ => false,
    }
}
