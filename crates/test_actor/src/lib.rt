//! Rows of actors at work, of sources as text and of trees.
//!
//! Of sources as text, and of two actors that are made as trees, with what their cells do.
//!
//! Tests that stand beside a crate make it be proved twice, so those of `lower_actor` are here.
#![tactic(auto)]

#[cfg(test)]
mod compiled;
#[cfg(test)]
mod firing;
#[cfg(test)]
mod functions;
#[cfg(test)]
mod sources;
