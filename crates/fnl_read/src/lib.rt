//! The reader of networks: from the bytes of a file to what it declares.
//!
//! From the bytes of a file to what it declares, its instances and its connections.
//!
//! The markup is read by `fnl_markup`. The elements are read here, one tag at a time, with what is open on a stack: no
//! call goes deeper where a source does.
#![tactic(auto)]

mod closing;
mod expressions;
mod file;
mod laws;
mod opening;
mod reader;

pub use file::read_network;
pub use fnl_frames::{
    NetConnection, NetDecl, NetFile, NetInstance, NetParameter, NetPort, NetSize,
};
pub use laws::no_network_begins_so;
