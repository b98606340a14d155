//! Binding: networks with their values, as they stand in each other, from a top network down.
//!
//! `specs/Trees.antt` says which rules networks break and what tree they make if they break none; `proofs/Rows.antt` has
//! worked rows. `bind` of `fnl_walk` answers the tree. A [`NetSet`] holds the networks of a compilation by their classes:
//! contracts see it as the list that the definitions take, in the order in which networks were added.
#![tactic(auto)]

mod entry;
mod laws;
mod set;

pub use entry::NetEntry;
pub use fnl_tree::{Inner, Leaf, LeafValue, Net, NetEnd, Part, Tree, Wire};
pub use laws::bound_trees_are_sound;
pub use set::NetSet;
