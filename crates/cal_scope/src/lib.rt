//! Names: what a name stands for where it is used, and the text that stands for it in full.
//!
//! A part of a source sees the names that the scopes round it declare, those that its file declares, and those that the
//! file imports. Inner names hide outer ones, and a file's own declaration hides an import. [`FileNames`] holds the
//! names of a file, [`NameSet`] those of one scope, and [`Inside`] is what a part sees.
//!
//! [`resolve_members`] gives the members of a file with each name written out in full, or the first rule of scope that
//! they break, with its place; [`resolve_expr`] and [`resolve_type`] do so for one part. `specs/` says what each part is
//! then. What a file imports is added to its names by the crate above, which goes from file to file.
#![tactic(auto)]

mod actions;
mod copies;
mod expr;
mod fault;
mod file_names;
mod frames;
mod made;
mod made_stmt;
mod member;
mod members;
mod name_set;
mod own_names;
mod ports;
mod public;
mod role;
mod stmt;
mod vars;

pub use fault::ScopeFault;
pub use file_names::{FileNames, Meaning};
pub use frames::{Frame, Inside};
pub use name_set::NameSet;
pub use ports::PortNames;
pub use public::{resolve_expr, resolve_members, resolve_type};
pub use role::Role;
