//! The tree: networks, their instances and connections, and the actors at its leaves.

use cal_model::Value;
use rvc_base::{InstId, Place, Scalar};

/// A network with all networks that stand in it, directly or indirectly. Its leaves are actors.
#[derive(Drop)]
pub struct Tree {
    /// The top network is the first.
    pub nets: Vec<Net>,
    /// In instance order: depth first, in the order of the instances.
    pub leaves: Vec<Leaf>,
}

/// A network.
#[derive(Drop)]
pub struct Net {
    /// The number of its file.
    pub file: u32,
    /// The ids of the instances that lead to it, joined by `/`: none for the top.
    pub path: String,
    /// Its own ports.
    pub ins: Vec<NetEnd>,
    pub outs: Vec<NetEnd>,
    /// Its instances.
    pub parts: Vec<Part>,
    /// Its connections.
    pub wires: Vec<Wire>,
}

/// A port of a network.
#[derive(Drop)]
pub struct NetEnd {
    pub name: String,
    /// The type of its tokens.
    pub kind: Scalar,
}

/// An instance.
#[derive(Drop)]
pub struct Part {
    pub id: String,
    pub inner: Inner,
}

/// What an instance is.
#[derive(Clone, Copy, Debug, PartialEq, Eq)]
pub enum Inner {
    /// The network at this place of the tree.
    Net(u32),
    /// The actor at this leaf of the tree.
    Leaf(InstId),
}

/// A connection, from a port that writes to a port that reads.
#[derive(Drop)]
pub struct Wire {
    /// The instance, and its output. If no instance is named, the network's own input.
    pub src: String,
    pub src_port: String,
    /// The instance, and its input. If no instance is named, the network's own output.
    pub dst: String,
    pub dst_port: String,
    /// The largest `bufferSize` in tokens, or 0 if none is given.
    pub size: u32,
    /// The offset of its element.
    pub at: u32,
}

/// An actor of the network, with the values of its parameters.
#[derive(Drop)]
pub struct Leaf {
    /// The ids of the instances that lead to it, joined by `/`.
    pub path: String,
    /// Its dotted class.
    pub class: String,
    /// The places of its `Class` and of its `Instance`.
    pub class_at: Place,
    pub instance_at: Place,
    /// In the order of the `Parameter` elements.
    pub bindings: Vec<LeafValue>,
}

/// The value of a parameter.
#[derive(Drop)]
pub struct LeafValue {
    pub name: String,
    pub value: Value,
    /// The place of its `Parameter`.
    pub place: Place,
}
