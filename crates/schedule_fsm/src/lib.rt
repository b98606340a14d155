//! The automaton of an actor's schedule: eligible actions, and the state that follows.
//!
//! Which actions are eligible in a state, and the state that follows (CAL Language Report, action-level control
//! structures).
#![tactic(auto)]

mod fsm;
mod table;

pub use fsm::{Fsm, FsmFault, Step, build};
