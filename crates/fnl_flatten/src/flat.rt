//! Networks flattened.

ghost use Rattle.std.specs.Prelude.{◌≡◌, [], IfErr, IfOk, Some, map, slice_get, string_bytes};
ghost use Rattle.fnl_tree.specs.View.{leaf_of, net_of, own_of, tree_of};
ghost use Rattle.fnl_flatten.specs.Flat.{port_of};
ghost use Rattle.fnl_flatten.specs.Flattened.{IsFlattened, IsRefusal};
ghost use Rattle.net_model.specs.Ready as ready;
ghost use Rattle.fnl_flatten.specs.Links.{AreJoined};
ghost use Rattle.fnl_flatten.specs.Named.{HasFewPorts, IsCause, IsFrontOf};
ghost use Rattle.fnl_flatten.specs.Rules.{violations};
ghost use Rattle.fnl_flatten.specs.View.{heads_of};
ghost use Rattle.fnl_flatten.specs.Whole.{IsWhole};

use crate::entering::all_writers;
use crate::fault::Fault;
use crate::find::net_at;
use crate::head::Head;
use crate::limits::limit_passed;
use crate::link::links_to;
use crate::readers::readers;
use fnl_tree::{Leaf, Net, NetEnd, Tree};
use net_model::{Link, Port};
use rvc_base::{Front, Memory, Place, Refusal};
use std::alloc::Global;

/// A network without networks in it.
#[derive(Drop)]
pub struct Flat {
    /// The ids of the instances that lead to each actor, joined by `/`. Actors are numbered depth first, in the order of
    /// the instances.
    pub paths: Vec<String>,
    /// The dotted class of each actor.
    pub classes: Vec<String>,
    /// The network's own ports.
    pub ins: Vec<Port>,
    pub outs: Vec<Port>,
    /// By target: the inputs of actor 0 in port order, those of actor 1 and so on, then the network's outputs.
    pub links: Vec<Link>,
}

/// The paths of actors.
fn paths(alloc: Global, leaves: &[Leaf]) -> Result<Vec<String>, Memory>
    ensures { IfOk result (λ paths. map string_bytes paths.items
        ≡ map (λ leaf. leaf.path) (map leaf_of leaves.now)) }
{
    let mut paths = Vec::new(alloc);
    let mut rest = leaves;
    'leaves: while let Some((leaf, others)) = rest.split_first() {
        let path = String::from_str(alloc, leaf.path.as_str())?;
        paths.push(path)?;
        rest = others;
    }
    Ok(paths)
}

/// The classes of actors.
fn classes(alloc: Global, leaves: &[Leaf]) -> Result<Vec<String>, Memory>
    ensures { IfOk result (λ classes. map string_bytes classes.items
        ≡ map (λ leaf. leaf.class) (map leaf_of leaves.now)) }
{
    let mut classes = Vec::new(alloc);
    let mut rest = leaves;
    'leaves: while let Some((leaf, others)) = rest.split_first() {
        let class = String::from_str(alloc, leaf.class.as_str())?;
        classes.push(class)?;
        rest = others;
    }
    Ok(classes)
}

/// A network's own ports.
fn ports(alloc: Global, ends: &[NetEnd]) -> Result<Vec<Port>, Memory>
    ensures { IfOk result (λ ports. map ready.port_of ports.items
        ≡ map port_of (map own_of ends.now)) }
{
    let mut ports = Vec::new(alloc);
    let mut rest = ends;
    'ends: while let Some((end, others)) = rest.split_first() {
        let name = String::from_str(alloc, end.name.as_str())?;
        let kind = end.kind;
        ports.push(Port { name, kind })?;
        rest = others;
    }
    Ok(ports)
}

/// All links of a tree whose top is this network.
fn links_of(alloc: Global, tree: &Tree, heads: &[Head], top: &Net) -> Result<Vec<Link>, Fault>
    requires whole { IsWhole (tree_of tree.now) (heads_of heads.now) }
    requires top { slice_get (tree_of tree.now).nets 0 ≡ Some (net_of top.now) }
    requires few { HasFewPorts top.now }
    ensures conforms { IfOk result
        (λ _. violations (tree_of tree.now) (heads_of heads.now) ≡ []) }
    ensures joined { IfOk result
        (λ links. AreJoined (tree_of tree.now) (heads_of heads.now) links.items) }
    ensures broken { IfErr result
        (IsCause (violations (tree_of tree.now) (heads_of heads.now))) }
{
    let writers = all_writers(alloc, tree, heads)?;
    let ends = readers(alloc, tree, heads, top.outs.len())?;
    let links = links_to(alloc, tree, heads, &writers, &ends)?;
    Ok(links)
}

/// The flat network of these links.
fn flat_of(alloc: Global, tree: &Tree, top: &Net, links: Vec<Link>) -> Result<Flat, Memory>
    ensures paths { IfOk result (λ flat. map string_bytes flat.paths.items
        ≡ map (λ leaf. leaf.path) (tree_of tree.now).leaves) }
    ensures classes { IfOk result (λ flat. map string_bytes flat.classes.items
        ≡ map (λ leaf. leaf.class) (tree_of tree.now).leaves) }
    ensures ins { IfOk result (λ flat. map ready.port_of flat.ins.items
        ≡ map port_of (net_of top.now).ins) }
    ensures outs { IfOk result (λ flat. map ready.port_of flat.outs.items
        ≡ map port_of (net_of top.now).outs) }
    ensures links { IfOk result (λ flat. flat.links ≡ links) }
{
    let paths = paths(alloc, &tree.leaves)?;
    let classes = classes(alloc, &tree.leaves)?;
    let ins = ports(alloc, &top.ins)?;
    let outs = ports(alloc, &top.outs)?;
    Ok(Flat {
        paths,
        classes,
        ins,
        outs,
        links,
    })
}

/// A fault as it is answered.
fn front_of(fault: Fault) -> Front
    ensures { IsFrontOf fault result }
{
    match fault {
        Fault::Broken { rule, file, at } => {
            let place = Place { file, offset: at };
            Front::Refused(Refusal { rule, place })
        }
        Fault::Memory => Front::Memory,
    }
}

/// The network that a tree of networks is, with one link for each chain of connections between ports of actors, or between
/// these and the top network's own ports (ISO/IEC 23001-4, FNL).
///
/// The tree is one that binding gives, and `heads` has the ports of the actor at each leaf. A link's capacity is the
/// largest size that a connection of its chain asks for, else 512 tokens, and never less than a firing takes or gives at
/// its ends.
///
/// # Errors
///
/// `Refused` if a connection breaks a rule: a joint has a second writer (N4), an instance or a port is unknown (N5), a
/// Boolean port meets another kind (N6), no instance is named (N7); or if there are more than 4,096 links (Z8), or their
/// capacities add to more than 16,777,216 tokens (Z9). It names a rule that is broken at that place (`refused`), and comes
/// if any is (`flat`). `Memory` if memory runs out.
pub fn flatten(alloc: Global, tree: &Tree, heads: &[Head]) -> Result<Flat, Front>
    requires { IsWhole (tree_of tree.now) (heads_of heads.now) }
    ensures flat { IfOk result (IsFlattened (tree_of tree.now) (heads_of heads.now)) }
    ensures refused { IfErr result (IsRefusal (tree_of tree.now) (heads_of heads.now)) }
{
    let Some(top) = net_at(tree, 0) else {
        unreachable!()
    };
    let links = match links_of(alloc, tree, heads, top) {
        Ok(links) => links,
        Err(fault) => return Err(front_of(fault)),
    };
    if let Some(refusal) = limit_passed(&links, top.file) {
        return Err(Front::Refused(refusal));
    }
    match flat_of(alloc, tree, top, links) {
        Ok(flat) => Ok(flat),
        Err(Memory) => Err(Front::Memory),
    }
}
