//! Networks that are alike have the same traces.
//!
//! What is replayed are cells, and what is promised is said of the actors for which their code stands. The two networks are
//! alike (`Likeness` of `net_model`), so a text is a trace of a run over the one if it is one over the other; and if it is
//! none, the same line and the same cause are told. [`traces_are_alike`] says so, over the states of any two networks.
#![tactic(auto)]

mod laws;

pub use laws::traces_are_alike;
