//! Networks bound: the tree that they make from the one of a class down.
//!
//! [`bind`] walks the networks of a set depth first. The networks that are open stand on a stack, so no call goes
//! deeper where networks do. `fnl_bind` says which rules they break, and what the tree is.
#![tactic(auto)]

mod leaf;
mod open;
mod paths;
mod start;
mod step;
mod walk;

pub use fnl_tree::{Inner, Leaf, LeafValue, Net, NetEnd, Part, Tree, Wire};
pub use start::bind;
