//! A file of a set.

use cal_ast::File;

/// A file of a set.
#[derive(Drop)]
pub(crate) struct Entry {
    /// Its number.
    pub file: u32,
    pub tree: File,
}
