//! The first leaf of an actor.

use fnl_tree::Leaf;

/// The first leaf at which an actor stands.
#[derive(Clone, Copy)]
pub(crate) struct First<'a> {
    pub leaf: &'a Leaf,
    /// The place of the actor before it that has its class, if there is one.
    pub earlier: Option<u32>,
}
