//! What is left out of an actor, since nothing uses it, changes nothing.
//!
//! An actor keeps of what other files declare only what it uses, directly or indirectly. Here it is shown of the evaluator
//! that whatever uses only names that are kept does over those alone what it does over all declarations.
//!
//! Sizes and bounds are written out where an actor is made of its source. That changes nothing either: the actor of a source
//! behaves as the actor as it is written.
#![tactic(auto)]

mod laws;

pub use laws::{
    expressions_over_used_names_give_the_same, kept_parts_behave_the_same,
    routines_over_used_names_do_the_same, sources_behave_as_with_all_declared,
    sources_behave_as_written, statements_over_used_names_do_the_same,
};
