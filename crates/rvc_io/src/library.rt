//! Files that are read whole, by name.

ghost use Rattle.std.specs.Prelude.{◌≡◌, ◌≢◌, ◌≤◌, ℕ, List, []};
ghost use Rattle.rvc_io.specs.Told.{Told, IsTold, IsLacking};
ghost use Rattle.rvc_io.specs.Count.{HasRisen};
ghost use Rattle.rvc_io.specs.Library.{IsTooLong};
ghost use Rattle.rvc_io.specs.Past.{Done};

use std::alloc::Global;

/// The most bytes that a file may have.
pub const MAX_FILE_BYTES: usize = 1_048_576;

/// How the reading of a file went.
#[derive(Clone, Copy, Debug, PartialEq, Eq)]
pub enum ReadAnswer {
    Found,
    /// There is no such file.
    Missing,
    /// The file couldn't be read.
    Failed,
    /// The file has more than [`MAX_FILE_BYTES`] bytes.
    TooLong,
    /// Out of memory.
    Memory,
}

/// Files by name.
pub trait Library {
    ghost use Rattle.rvc_io.specs.Reads.{read_as};

    /// What is known of the file of this name.
    ghost file: { Self → List ℕ → Told };
    /// How many reads failed so far.
    ghost faults: { Self → ℕ };
    /// How many names were found missing so far.
    ghost misses: { Self → ℕ };
    /// What was done so far, the last first: which files were asked for, and what came.
    ghost past: { Self → List Done };

    /// Reads the file `name` into `out`, which is empty at first and after every answer but `Found`.
    ///
    /// # Errors
    ///
    /// `Missing` if there is no such file: the miss is counted (`missing`). `Failed` if the file couldn't be read: the
    /// failure is counted (`failed`). `TooLong` if the file has more than [`MAX_FILE_BYTES`] bytes (`too_long`).
    /// `Memory` if memory runs out.
    fn read(&mut self, alloc: Global, name: &str, out: &mut Vec<u8>) -> ReadAnswer
        requires { out.old.items ≡ [] }
        ensures found { result ≡ ReadAnswer.Found → IsTold (file self.old name.now) out.new.items }
        ensures missing { result ≡ ReadAnswer.Missing
            → HasRisen (misses self.old) (misses self.new) × IsLacking (file self.old name.now) }
        ensures failed { result ≡ ReadAnswer.Failed → HasRisen (faults self.old) (faults self.new) }
        ensures too_long { result ≡ ReadAnswer.TooLong → IsTooLong (file self.old name.now) }
        ensures nothing_else { result ≢ ReadAnswer.Found → out.new.items ≡ [] }
        ensures same_files { (other : List ℕ) → file self.new other ≡ file self.old other }
        ensures faults_stay { faults self.old ≤ faults self.new }
        ensures misses_stay { misses self.old ≤ misses self.new }
        ensures noted { past self.new
            ≡ read_as result name.now out.new.items (past self.old) };
}
