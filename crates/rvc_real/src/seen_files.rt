//! The regular files of a run, by what they are and not by their names.

ghost use Rattle.std.specs.Prelude.{◌≡◌};
ghost use Rattle.std.specs.List.{list_any};
ghost use Rattle.rvc_real.specs.SameFile.{is_same_file};

use std::alloc::{AllocError, Global};
use std::cell::RefCell;
use std::fs::Metadata;
use std::os::unix::fs::MetadataExt;

/// What tells a file from others, whatever its names are: its device, and its number there.
#[derive(Clone, Copy)]
struct FileId {
    device: u64,
    number: u64,
}

/// The regular files that a run has opened: its sources, and what its feeds and channels are. Those who open files share
/// them, so that none of these is emptied as a channel.
#[derive(Drop)]
pub struct SeenFiles {
    files: RefCell<Vec<FileId>>,
}

impl SeenFiles {
    /// No file was opened yet.
    pub fn new(alloc: Global) -> SeenFiles {
        SeenFiles {
            files: RefCell::new(Vec::new(alloc)),
        }
    }

    /// Notes a file that was opened. Devices and pipes are passed over.
    ///
    /// # Errors
    ///
    /// `AllocError` if memory runs out.
    pub(crate) fn note(&self, found: &Metadata) -> Result<(), AllocError> {
        if !found.is_file() || self.has(found) {
            return Ok(());
        }
        let Ok(mut files) = self.files.try_borrow_mut() else {
            return Err(AllocError);
        };
        files.push(id_of(found))?;
        Ok(())
    }

    /// Whether a file was noted.
    pub(crate) fn has(&self, found: &Metadata) -> bool {
        let Ok(files) = self.files.try_borrow() else {
            return false;
        };
        is_among(id_of(found), files.as_slice())
    }
}

/// Whether both are one file.
pub(crate) fn are_one_file(one: &Metadata, other: &Metadata) -> bool {
    is_among(id_of(one), &[id_of(other)])
}

/// What tells a file from others.
fn id_of(found: &Metadata) -> FileId {
    FileId {
        device: found.dev(),
        number: found.ino(),
    }
}

/// Whether a file is one of these.
fn is_among(file: FileId, files: &[FileId]) -> bool
    ensures { result ≡ list_any (is_same_file file) files.now }
{
    files.iter().any(|other| is_same_file(file, *other))
}

/// Whether both are one file.
fn is_same_file(file: FileId, other: FileId) -> bool
    ensures { result ≡ is_same_file file other }
{
    file.device == other.device && file.number == other.number
}
