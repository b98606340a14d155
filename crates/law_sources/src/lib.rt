//! What holds of files that texts spell: names differ, calls end, nothing is hidden.
//!
//! Names differ, parts have the forms of the grammar, calls end, nothing is hidden.
//!
//! `cal_check` asks of an actor, with what its imports lead to, that no two of the texts that stand for its
//! declarations are equal ([`names_differ`]), that its parts have the forms of the grammar ([`parts_are_formed`]), that
//! no function and no procedure calls itself ([`calls_end`]), and that nothing declared inside has the text of a
//! function or a procedure that is called there ([`funs_are_scoped`], [`procs_are_scoped`], [`actions_are_scoped`]).
//! All hold because files were read from texts: the lexis has no dot in a name, so the last dot of a text tells the
//! class from the name, and the rules of scope refuse a name that is declared twice.
//!
//! [`actor_files_are_spelled`], [`said_files_are_spelled`] and [`network_files_are_spelled`] say which files are: those
//! that are loaded for an actor, any that say what their texts spell, and those that are loaded for a network.
#![tactic(auto)]

mod form_laws;
mod laws;
mod scope_laws;

pub use form_laws::{calls_end, parts_are_formed};
pub use laws::{
    actor_files_are_spelled, names_differ, network_files_are_spelled, said_files_are_spelled,
};
pub use scope_laws::{actions_are_scoped, funs_are_scoped, procs_are_scoped};
