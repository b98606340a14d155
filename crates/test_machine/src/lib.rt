//! Rows of code with what programs come to, and what is chosen of actors.
//!
//! Rows of code with their answers: what programs of each instruction come to, which bodies make an actor, and what is
//! chosen of it.
//!
//! Tests that stand beside a crate make it be proved twice, so those of `action_machine`, `lowered_actor` and
//! `guard_select` are all here, over their public calls.
#![tactic(auto)]

#[cfg(test)]
mod actors;
#[cfg(test)]
mod lowered;
#[cfg(test)]
mod machine;
#[cfg(test)]
mod programs;
#[cfg(test)]
mod selection;
