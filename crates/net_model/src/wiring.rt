//! The ports and links of a network.

use rvc_base::{InstId, Scalar};

/// A port of a network.
#[derive(Drop)]
pub struct Port {
    pub name: String,
    pub kind: Scalar,
}

/// One end of a link.
#[derive(Clone, Copy, Debug, PartialEq, Eq)]
pub enum End {
    /// A port of a leaf: an output where the link begins, an input where it ends.
    Leaf { inst: InstId, port: u32 },
    /// A port of the network: an input where the link begins, an output where it ends.
    Net { port: u32 },
}

/// A queue of tokens that leads from a writing end to a reading end.
#[derive(Clone, Copy, Debug, PartialEq, Eq)]
pub struct Link {
    pub from: End,
    pub to: End,
    /// How many tokens it can hold at the start. At a stall it may grow.
    pub capacity: u32,
    /// The type of its tokens: that of the reading end.
    pub kind: Scalar,
}

/// How the instances of a network are joined to each other and to the outside.
#[derive(Drop)]
pub struct Wiring {
    /// By target: the inputs of instance 0 in port order, those of instance 1 and so on, then the outputs.
    pub links: Vec<Link>,
    /// The network's own ports.
    pub ins: Vec<Port>,
    pub outs: Vec<Port>,
    /// Whether each of these has a feed, and a channel. An input link without feed has no tokens.
    pub open_ins: Vec<bool>,
    pub open_outs: Vec<bool>,
}

/// The numbers of a run.
#[derive(Drop)]
pub struct Counts {
    /// The lines `f`, and the lines `r`.
    pub firings: u64,
    pub rounds: u64,
    /// For each link the tokens that arrived and the bytes that were dropped at the end of its feed; both are 0
    /// but on input links.
    pub arrived: Vec<u64>,
    pub rests: Vec<u8>,
    /// For each output of the network the tokens that were sent.
    pub sent: Vec<u64>,
}
