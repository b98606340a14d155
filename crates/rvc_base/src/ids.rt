//! The numbers of instances, links and actions.

/// An instance (a leaf of the network), numbered from 0 depth first in the order of the instances.
#[derive(Clone, Copy, Debug, PartialEq, Eq)]
pub struct InstId(pub u32);

/// A link, numbered from 0 by its target.
#[derive(Clone, Copy, Debug, PartialEq, Eq)]
pub struct LinkId(pub u32);

/// An action of an actor, numbered from 0 in text order, `initialize` included.
#[derive(Clone, Copy, Debug, PartialEq, Eq)]
pub struct ActId(pub u16);
