//! What a top means: from a library's files to a network that is checked.
//!
//! [`check_network`] reads the files of a top and of all that it asks for, binds the networks, checks each actor and joins
//! them: what it gives is the source network of these files, or it names a rule that they break. Its steps are calls, too:
//! [`held_of_top`] gives the files besides, [`checking`] goes from files to their network, [`joining`] joins actors that are
//! known, and [`lone`] makes the tree of an actor alone.
//!
//! `specs/` says which top the words name (`Top`), what was checked (`Checked`) and what refuses a top, and why nothing
//! is given (`Refused`).
#![tactic(auto)]

mod checked;
pub mod checking;
mod fault;
mod held;
pub mod joining;
mod laws;
mod loading;
pub mod lone;
mod network;
mod top;

pub use checked::Checked;
pub use fault::{BuildFault, of_front, of_load};
pub use held::Held;
pub use laws::{checked_are_one_network, networks_are_not_refused, tops_are_read_by_name};
pub use loading::held_of_top;
pub use network::check_network;
pub use top::kind_of;
