//! A network of a set.

use fnl_read::NetFile;

/// A network that was read.
#[derive(Drop)]
pub struct NetEntry {
    /// The number of its file.
    pub file: u32,
    pub net: NetFile,
}
