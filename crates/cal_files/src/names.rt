//! The names of files by their numbers.

ghost use Rattle.std.specs.Prelude.{◌≡◌, []};
ghost use Rattle.cal_files.specs.Views.{file_names};

use std::alloc::Global;

/// The names of the files that were read. File k stands at place k - 1.
#[derive(Drop)]
pub struct Names {
    pub files: Vec<String>,
}

impl Names {
    /// No names.
    pub fn new(alloc: Global) -> Names
        ensures { file_names result ≡ [] }
    {
        Names {
            files: Vec::new(alloc),
        }
    }
}
