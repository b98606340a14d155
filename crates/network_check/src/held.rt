//! Files with what was checked of them.

use crate::checked::Checked;
use fnl_files::NetworkFiles;

/// Files that were read, and the network that they mean.
#[derive(Drop)]
pub struct Held {
    pub files: NetworkFiles,
    pub checked: Checked,
}
