//! The checks of an actor: which rules its source breaks, and what actor it is if it breaks none.
//!
//! `specs/Actors.antt` says both for an actor whose names are written in full, over the values of its parameters;
//! `proofs/Rows.antt` has worked rows. No call of this crate answers it. [`sources_without_violations_are_sound`] is the
//! law of the whole, and [`what_breaks_no_rule_is_sound`] that of its parts.
#![tactic(auto)]

mod laws;

pub use laws::{
    functions_without_types_give_nothing, sources_without_violations_are_sound,
    what_breaks_no_rule_is_sound, written_keeps_kinds, written_keeps_values,
    written_routines_do_the_same, written_statements_do_the_same,
};
