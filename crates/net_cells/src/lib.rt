//! The cells of a network of lowered actors, ready to be run.
//!
//! [`make_cells`] makes a cell for each leaf, with queues for the links at its ports. What a run of them leaves is what a
//! run of the actors leaves for which their code stands: [`cells_run_as_sources`] says so, over the law that networks
//! which are alike are run alike ([`networks_run_alike`]).
#![tactic(auto)]

mod laws;
mod making;
mod table;

pub use laws::{cells_run_as_sources, networks_run_alike};
pub use making::make_cells;
