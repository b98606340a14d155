//! Where the actors of a bound network stand: at the ends of chains of instances.
//!
//! `fnl_bind` makes a tree by a walk from the top network down. Here it is shown of that tree that each of its actors
//! stands at the end of a chain of instances: its path is the row of their ids, and its parameters have the values that
//! they are given along the chain ([`leaves_stand_in_chains`]). No two actors have one path ([`paths_differ`]).
#![tactic(auto)]

mod laws;

pub use laws::{leaves_stand_in_chains, paths_differ};
