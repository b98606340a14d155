//! Networks with their values, as they stand in each other: what binding gives and flattening takes.
//!
//! `specs/Tree.antt` says what such a tree is, and `specs/Sound.antt` what binding keeps. `tree_of` of
//! `specs/View.antt` is the tree that a value of [`Tree`] stands for.
#![tactic(auto)]

mod tree;

pub use tree::{Inner, Leaf, LeafValue, Net, NetEnd, Part, Tree, Wire};
