//! What networks are asked.

ghost use Rattle.std.specs.Prelude.{IfOk};
ghost use Rattle.fnl_tree.specs.Sound.{IsSound};
ghost use Rattle.fnl_tree.specs.View.{tree_of};

use crate::told::{Told, flattened, refusal};
use fnl_bind::NetSet;
use fnl_flatten::{Head, HeadPort, flatten};
use fnl_read::{NetFile, read_network};
use fnl_tree::{Leaf, Tree};
use fnl_walk::bind;
use rvc_base::{Front, Scalar};
use std::alloc::{AllocError, Global};
use test_fnl_flatten::heads_fit;

/// Why nothing is asked.
const NOTHING: Front = Front::Memory;

/// A text, cut at the first of a mark.
pub fn cut<'a>(text: &'a str, at: &str) -> (&'a str, &'a str) {
    text.split_once(at).unwrap_or((text, ""))
}

fn scalar(text: &str) -> Scalar {
    match text {
        "bool" => Scalar::Bool,
        "i16" => Scalar::Int(16),
        "u32" => Scalar::Uint(32),
        _ => Scalar::Uint(8),
    }
}

fn port(alloc: Global, name: &str, kind: &str, largest: &str) -> Result<HeadPort, AllocError> {
    let name = String::from_str(alloc, name)?;
    Ok(HeadPort {
        name,
        kind: scalar(kind),
        largest: largest.parse().unwrap_or(1),
    })
}

fn ports(alloc: Global, text: &str) -> Result<Vec<HeadPort>, AllocError> {
    let mut ports = Vec::new(alloc);
    for word in text.split_whitespace() {
        let (name, rest) = cut(word, ":");
        let (kind, largest) = cut(rest, ":");
        ports.push(port(alloc, name, kind, largest)?)?;
    }
    Ok(ports)
}

/// The ports of the actor of a class, as they are told.
fn line_of<'a>(class: &str, actors: &'a str) -> &'a str {
    for actor in actors.split("\nactor ") {
        let (name, line) = cut(actor, " ");
        if name == class {
            return line;
        }
    }
    ""
}

/// The ports of the actor of a class; none if it isn't told.
fn head(alloc: Global, class: &str, actors: &str) -> Result<Head, AllocError> {
    let line = line_of(class, actors);
    let (ins, outs) = cut(line, ";");
    let ins = ports(alloc, ins)?;
    let outs = ports(alloc, outs)?;
    Ok(Head { ins, outs })
}

fn heads(alloc: Global, leaves: &[Leaf], actors: &str) -> Result<Vec<Head>, AllocError> {
    let mut heads = Vec::new(alloc);
    for leaf in leaves {
        heads.push(head(alloc, leaf.class.as_str(), actors)?)?;
    }
    Ok(heads)
}

/// A network that is read from its text.
pub fn read(alloc: Global, file: u32, text: &str) -> Result<NetFile, Front> {
    let text = text.as_bytes();
    if text.len() >= 1 << 32 {
        return Err(NOTHING);
    }
    read_network(alloc, file, text)
}

/// Adds a network to a set, in which its class isn't yet.
pub fn add(set: &mut NetSet, class: &str, file: u32, net: NetFile) -> Result<(), Front> {
    if set.has(class) {
        return Err(NOTHING);
    }
    match set.add(class, file, net) {
        Ok(()) => Ok(()),
        Err(_) => Err(NOTHING),
    }
}

/// The set of these networks.
fn set_of(alloc: Global, nets: &str) -> Result<NetSet, Front> {
    let Ok(mut set) = NetSet::new(alloc) else {
        return Err(NOTHING);
    };
    let mut file = 0u32;
    for net in nets.split("\nnet ") {
        let (class, text) = cut(net, " ");
        file = file.saturating_add(1);
        let net = read(alloc, file, text)?;
        add(&mut set, class, file, net)?;
    }
    Ok(set)
}

/// The tree that networks make from the class of the top down.
fn tree_from(alloc: Global, nets: &str) -> Result<Tree, Front>
    ensures { IfOk result (λ tree. IsSound (tree_of tree)) }
{
    let set = set_of(alloc, nets)?;
    let (top, _) = cut(nets, " ");
    if !set.has(top) {
        return Err(NOTHING);
    }
    bind(alloc, &set, top)
}

/// What a sound tree comes to.
fn answer_of_tree(
    alloc: Global,
    told: Told,
    tree: &Tree,
    actors: &str,
) -> Result<String, AllocError>
    requires { IsSound (tree_of tree.now) }
{
    let heads = heads(alloc, &tree.leaves, actors)?;
    if !heads_fit(tree, &heads) {
        return refusal(alloc, NOTHING);
    }
    let found = flatten(alloc, tree, &heads);
    flattened(alloc, told, &tree.leaves, found)
}

/// What networks come to, of which the first is the top. They stand with `\nnet ` between as `CLASS TEXT`, and are
/// numbered from 1. The actors stand with `\nactor ` between as `CLASS INPUTS ; OUTPUTS`, with ports as `name:type` or
/// `name:type:rate`.
pub fn answer(alloc: Global, told: Told, nets: &str, actors: &str) -> Result<String, AllocError> {
    match tree_from(alloc, nets) {
        Ok(tree) => answer_of_tree(alloc, told, &tree, actors),
        Err(front) => refusal(alloc, front),
    }
}
