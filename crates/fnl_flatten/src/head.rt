//! The ports of actors.

use rvc_base::Scalar;

/// The ports of the actor at a leaf.
#[derive(Drop)]
pub struct Head {
    pub ins: Vec<HeadPort>,
    pub outs: Vec<HeadPort>,
}

/// A port of an actor.
#[derive(Drop)]
pub struct HeadPort {
    pub name: String,
    /// The type of its tokens.
    pub kind: Scalar,
    /// The most tokens that a firing takes or gives there.
    pub largest: u32,
}
