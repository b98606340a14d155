//! Lowered actors: an actor as code for the machine, with its automaton, its priorities and its rates.
//!
//! A [`Lowered`] is what is left of an actor once its source isn't needed any more. It keeps five facts, which
//! `specs/Facts.antt` states, and from them it has a meaning (`specs/Meaning.antt`): which actions are eligible, have
//! their tokens, are enabled or exposed, which one is to fire, and what a firing sends and leaves. That meaning is
//! lawful, as networks ask of their actors.
#![tactic(auto)]

mod candidates;
mod fitting;
pub mod laws;
mod lowered;
mod parts;
mod saved;
mod straight;

pub use lowered::{Lowered, Unfit};
pub use parts::{ActionCode, Parts, StateCell};
