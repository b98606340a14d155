//! Networks flattened: which actors there are, and which links join their ports.
//!
//! `specs/Links.antt` says which links there are: exactly the pairs of ends that a chain of connections joins.
//! `specs/Rules.antt` says which rules connections break. [`flatten`] answers the links, or a rule that is broken.
#![tactic(auto)]

mod arrows;
mod ends;
mod entering;
mod fault;
mod find;
mod flat;
mod head;
mod joint;
mod kinds;
mod laws;
mod limits;
mod link;
mod link_ends;
mod names;
mod origin;
mod part_names;
mod readers;
mod writers;

pub use flat::{Flat, flatten};
pub use head::{Head, HeadPort};
pub use joint::Joint;
pub use laws::{answers_are_flat_networks, flat_networks_are_wired, links_are_one};
