//! Rows of networks as text with their actors, values and links, or the rule that they break.
//!
//! Rows of networks as text with what they come to: their actors with what is given to these, their links, or a rule
//! that they break with its place.
//!
//! Tests that stand beside a crate make it be proved twice, so those of `fnl_scopes`, `fnl_values`, `fnl_bind` and
//! `fnl_walk` are all here. What networks come to is asked of `kit_networks`.
#![tactic(auto)]

#[cfg(test)]
mod answers;
#[cfg(test)]
mod cases;
#[cfg(test)]
mod expressions;
#[cfg(test)]
mod limits;
#[cfg(test)]
mod refusals;
#[cfg(test)]
mod rows;
#[cfg(test)]
mod scopes;
#[cfg(test)]
mod unfit_values;
