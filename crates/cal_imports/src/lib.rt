//! Files and imports: from a set of files to an actor with all declarations that it may use.
//!
//! [`FileSet`] holds the files that a compilation reads, each under its class: the path of its package and its name, with
//! dots between. [`resolve`] begins at an actor and goes along imports, depth first. It judges each unit to which they
//! lead, in an order in which each stands behind those that it imports itself, and then the actor. What it answers is a
//! [`Scope`]: the actor's tree and each variable and function of these units, in all of which each use of a name is
//! written out in full. If a rule of scope is broken in one of the files, it names one that is, with file and place.
//!
//! `specs/` says what each step is: what a file is asked to be (`Sources`), what imports bring (`Brought`), a file with
//! its names in full (`OneFile`), walks along edges (`Walk`), what is gathered (`Whole`), calls that lead back
//! (`Recursion`) and all of it (`Resolved`). [`scopes_have_an_order`] says what a scope without such calls is.
#![tactic(auto)]

mod asked_for;
mod brought;
mod calls;
mod class_text;
mod entry;
mod fault;
mod file_set;
mod gather;
mod graph;
mod header;
mod imports;
mod laws;
mod one_file;
mod public;
mod recursion;
mod scope;
mod stmt_calls;
mod unit_names;
mod walk;

pub use file_set::FileSet;
pub use laws::scopes_have_an_order;
pub use public::resolve;
pub use scope::{OuterFun, OuterVar, Scope};
