//! The files of a network, as its classes and imports ask for them.
//!
//! That of its class, those of the classes of its instances, and those to which imports lead.
//!
//! [`load_network`] reads them from a [`Library`](rvc_io::Library), each once, and gives the networks as the
//! [`NetSet`](fnl_bind::NetSet) and the actors and units as the [`FileSet`](cal_imports::FileSet) that the calls above
//! take. The class `p.q.A` stands in the file `p/q/A.xdf` if it is a network, and in `p/q/A.cal` if it is an actor or a
//! unit. Of the class of an instance, the network's file is tried first, and once: if it is missed, the class is an
//! actor from then on. What a file asks for is met in the order of its text, file by file: a class that wasn't read yet
//! is read, and its file has the next number from 1. [`Names`](cal_files::Names) holds the names by these numbers.
//!
//! A file is refused by the first of these: its length, its lexis, its grammar, the limits of all files together. A
//! class without a file is refused where it is asked for.
//!
//! `specs/` of `fnl_source` says which files a top needs; `specs/` here says what refuses one (`Loading`).
#![tactic(auto)]

mod adding;
mod files;
mod kind;
mod laws;
mod loading;
mod looking;
mod network_text;
mod reading;
mod requests;
mod taking;

pub use files::NetworkFiles;
pub use kind::FileKind;
pub use laws::{leaves_have_files, one_outcome};
pub use looking::load_network;
