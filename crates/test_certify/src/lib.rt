//! Rows of guards with what the certifier answers for actors that have them.
//!
//! Tests that stand beside a crate make it be proved twice, so those of `determinacy_cert` are here, over its public
//! call. The actors are those of `kit_actors`.
#![tactic(auto)]

#[cfg(test)]
mod answers;
#[cfg(test)]
mod ends;
#[cfg(test)]
mod guards;
#[cfg(test)]
mod pairs;
