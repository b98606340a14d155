//! The actors at the leaves of a network.

use cal_model::Bound;

/// The actors at the leaves of a network, each class with its values once.
#[derive(Drop)]
pub struct LeafActors {
    /// Each actor once.
    pub actors: Vec<Bound>,
    /// For each leaf the place of its actor.
    pub of_leaf: Vec<u32>,
}
