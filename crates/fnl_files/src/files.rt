//! What loading gives.

use cal_imports::FileSet;
use fnl_bind::NetSet;

/// Files that were read, by their classes, with their numbers.
#[derive(Drop)]
pub struct NetworkFiles {
    pub networks: NetSet,
    /// Actors and units.
    pub sources: FileSet,
}
