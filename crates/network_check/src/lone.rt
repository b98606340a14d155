//! An actor as the top: the one leaf of a network with its own ports.

ghost use Rattle.std.specs.Prelude.{◌≡◌, ◌++◌, ◌∷◌, [], IfOk, OnOk, map};
ghost use Rattle.cal_model.specs.View.{actor_of, port_view};
ghost use Rattle.fnl_tree.specs.View.{leaf_of, net_of, own_of, part_of, tree_of, wire_of};
ghost use Rattle.fnl_source.specs.Lone as lone;
ghost use Rattle.fnl_source.specs.Lone.{lone_leaf, lone_tree, wire_in, wire_out};
ghost use Rattle.network_check.specs.LoneNet.{lone_net, lone_part};

use cal_model::{Bound, Port};
use fnl_tree::{Inner, Leaf, Net, NetEnd, Part, Tree, Wire};
use rvc_base::{InstId, Memory, Place};
use std::alloc::Global;

/// The command line.
const WORDS: Place = Place { file: 0, offset: 0 };

/// The leaf that the actor of a class is by itself. Its places are those of the command line.
///
/// # Errors
///
/// `Memory` if memory runs out.
pub fn lone_leaf(alloc: Global, name: &str, class: &str) -> Result<Leaf, Memory>
    ensures { IfOk result (λ leaf. leaf_of leaf ≡ lone_leaf name.now class.now) }
{
    let path = String::from_str(alloc, name)?;
    let class = String::from_str(alloc, class)?;
    Ok(Leaf {
        path,
        class,
        class_at: WORDS,
        instance_at: WORDS,
        bindings: Vec::new(alloc),
    })
}

/// The network's own ports: those of the actor.
fn own_ends(alloc: Global, ports: &[Port]) -> Result<Vec<NetEnd>, Memory>
    ensures { IfOk result (λ ends. map own_of ends.items ≡ map lone.own_of (map port_view ports.now)) }
{
    let mut ends = Vec::new(alloc);
    let mut rest = ports;
    'ports: while let Some((port, others)) = rest.split_first() {
        let name = String::from_str(alloc, port.name.as_str())?;
        let kind = port.kind;
        ends.push(NetEnd { name, kind })?;
        rest = others;
    }
    Ok(ends)
}

/// A connection from the network's own input to the actor's.
fn wire_in(alloc: Global, name: &str, port: &Port) -> Result<Wire, Memory>
    ensures { IfOk result (λ wire. wire_of wire ≡ wire_in name.now (port_view port.now)) }
{
    Ok(Wire {
        src: String::new(alloc),
        src_port: String::from_str(alloc, port.name.as_str())?,
        dst: String::from_str(alloc, name)?,
        dst_port: String::from_str(alloc, port.name.as_str())?,
        size: 0,
        at: 0,
    })
}

/// A connection from the actor's output to the network's own.
fn wire_out(alloc: Global, name: &str, port: &Port) -> Result<Wire, Memory>
    ensures { IfOk result (λ wire. wire_of wire ≡ wire_out name.now (port_view port.now)) }
{
    Ok(Wire {
        src: String::from_str(alloc, name)?,
        src_port: String::from_str(alloc, port.name.as_str())?,
        dst: String::new(alloc),
        dst_port: String::from_str(alloc, port.name.as_str())?,
        size: 0,
        at: 0,
    })
}

/// Adds the connections to inputs of the actor.
fn push_wires_in(
    alloc: Global,
    wires: &mut Vec<Wire>,
    name: &str,
    ports: &[Port],
) -> Result<(), Memory>
    ensures { OnOk result (map wire_of wires.new.items
        ≡ map wire_of wires.old.items ++ map (wire_in name.now) (map port_view ports.now)) }
{
    let mut rest = ports;
    'ports: while let Some((port, others)) = rest.split_first() {
        wires.push(wire_in(alloc, name, port)?)?;
        rest = others;
    }
    Ok(())
}

/// Adds the connections from outputs of the actor.
fn push_wires_out(
    alloc: Global,
    wires: &mut Vec<Wire>,
    name: &str,
    ports: &[Port],
) -> Result<(), Memory>
    ensures { OnOk result (map wire_of wires.new.items
        ≡ map wire_of wires.old.items ++ map (wire_out name.now) (map port_view ports.now)) }
{
    let mut rest = ports;
    'ports: while let Some((port, others)) = rest.split_first() {
        wires.push(wire_out(alloc, name, port)?)?;
        rest = others;
    }
    Ok(())
}

/// All connections.
fn lone_wires(alloc: Global, name: &str, actor: &Bound) -> Result<Vec<Wire>, Memory>
    ensures { IfOk result (λ wires. map wire_of wires.items
        ≡ map (wire_in name.now) (actor_of actor.now).ins
        ++ map (wire_out name.now) (actor_of actor.now).outs) }
{
    let mut wires = Vec::new(alloc);
    push_wires_in(alloc, &mut wires, name, &actor.ins)?;
    push_wires_out(alloc, &mut wires, name, &actor.outs)?;
    Ok(wires)
}

/// The one part.
fn lone_parts(alloc: Global, name: &str) -> Result<Vec<Part>, Memory>
    ensures { IfOk result (λ parts. map part_of parts.items ≡ lone_part name.now ∷ []) }
{
    let id = String::from_str(alloc, name)?;
    let mut parts = Vec::new(alloc);
    parts.push(Part {
        id,
        inner: Inner::Leaf(InstId(0)),
    })?;
    Ok(parts)
}

/// The network of an actor of this name.
fn lone_net(alloc: Global, name: &str, actor: &Bound) -> Result<Net, Memory>
    ensures { IfOk result (λ net. net_of net ≡ lone_net name.now (actor_of actor.now)) }
{
    Ok(Net {
        file: 0,
        path: String::new(alloc),
        ins: own_ends(alloc, &actor.ins)?,
        outs: own_ends(alloc, &actor.outs)?,
        parts: lone_parts(alloc, name)?,
        wires: lone_wires(alloc, name, actor)?,
    })
}

/// The tree of an actor alone, whose one leaf is this.
///
/// # Errors
///
/// `Memory` if memory runs out.
pub fn lone_tree(
    alloc: Global,
    leaves: Vec<Leaf>,
    name: &str,
    class: &str,
    actor: &Bound,
) -> Result<Tree, Memory>
    requires { map leaf_of leaves.items ≡ lone_leaf name.now class.now ∷ [] }
    ensures { IfOk result (λ tree. tree_of tree ≡ lone_tree name.now class.now (actor_of actor.now)) }
{
    let mut nets = Vec::new(alloc);
    nets.push(lone_net(alloc, name, actor)?)?;
    Ok(Tree { nets, leaves })
}
