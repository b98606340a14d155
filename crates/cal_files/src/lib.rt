//! The files of an actor: the one of its class, and those to which imports lead.
//!
//! [`load`] reads them from a [`Library`](rvc_io::Library), each once, and gives them as the
//! [`FileSet`](cal_imports::FileSet) that [`resolve`](cal_imports::resolve) takes; [`read_actor`] does both. The class
//! `p.q.A` stands in the file `p/q/A.cal`. The top is read first. Then the imports of each file are met in the order of
//! its text, file by file: a class that wasn't read yet is read, and its file has the next number from 1. [`Names`]
//! holds the names by these numbers, for whoever prints a place.
//!
//! A file is refused by the first of these: its length, its lexis, its grammar, the limits of all files together. A
//! class without a file is refused where it is asked for. [`tree_of`], [`short_text`] and [`check_limits`] are these tests,
//! for whoever reads files of other kinds beside them.
//!
//! `specs/` says which class is asked for next (`Reads`), which files are read and what refuses one (`Loading`), all by
//! what the library tells of each name.
#![tactic(auto)]

mod class_text;
mod fault;
mod file_names;
mod file_text;
mod laws;
mod limits;
mod loading;
mod names;
mod next_file;
mod requests;
mod top_actor;

pub use class_text::dotted;
pub use fault::{LoadFault, of_front, refused};
pub use file_names::{class_of, push_replaced};
pub use file_text::tree_of;
pub use laws::{loaded_are_reached, one_loading, one_outcome};
pub use limits::{MAX_BYTES, MAX_FILES, check_limits};
pub use loading::load;
pub use names::Names;
pub use next_file::{next_number, short_text, too_long};
pub use top_actor::read_actor;
