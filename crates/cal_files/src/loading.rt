//! The call for the files of an actor.

ghost use Rattle.std.specs.Prelude.{◌≡◌, ◌≤◌, ℕ, List, [], IfErr, IfOk, IsErr, IsSome, MatchResult};
ghost use Rattle.rvc_base.specs.declared.refusal.Refusal.{Refusal as Denial};
ghost use Rattle.cal_imports.specs.Sources.{source_named};
ghost use Rattle.cal_imports.specs.View.{sources};
ghost use Rattle.cal_files.specs.Loading.{Counts, IsLoaded, IsRefused, TellsAll};
ghost use Rattle.cal_files.specs.Reads.{Read};
ghost use Rattle.cal_files.specs.Views.{HoldsFiles, HoldsLoaded, IsFault, IsOutside, file_names};

use crate::fault::LoadFault;
use crate::laws::{one_loading, one_outcome};
use crate::names::Names;
use crate::next_file::{Loading, read_file};
use crate::requests::{first_requests, next_unread};
use cal_imports::FileSet;
use rvc_io::Library;
use std::alloc::Global;

/// Reads the file of an actor's class, and each file to which imports lead, once. The files have numbers from 1 in this
/// order, and `names` gets the name of file k at place k - 1, also that of a file that is found and refused, or whose
/// reading fails.
///
/// If the library tells of each name, files that can all be read are read (`complete`), and files of which one is
/// refused aren't (`incomplete`), unless a reading fails or memory runs out.
///
/// # Errors
///
/// `Refused`: there is no file of the class, or of a class that an import asks for; a file or all together pass a
/// limit; or a text breaks a rule of the lexis or of the grammar. `ReadFault`: the reading of this file failed, and the
/// failure was counted. `Memory`: an allocation was refused (`fault`).
pub fn load<L: Library>(
    alloc: Global,
    library: &mut L,
    class: &str,
    names: &mut Names,
) -> Result<FileSet, LoadFault>
    requires { file_names names.old ≡ [] }
    ensures loaded { IfOk result (λ set. HoldsLoaded (L.file library.old) class.now (sources set)
        (file_names names.new)) }
    ensures has_top { IfOk result (λ set. IsSome (source_named class.now (sources set))) }
    ensures fault { IfErr result (IsFault (L.file library.old) class.now
        (record { old = L.misses library.old; new = L.misses library.new })
        (record { old = L.faults library.old; new = L.faults library.new })
        (file_names names.new)) }

    // What a library that tells of each name decides.
    ensures complete { (reads : List Read) → TellsAll (L.file library.old)
        → IsLoaded (L.file library.old) class.now reads
        → MatchResult result (λ set. HoldsFiles reads (sources set) (file_names names.new))
        IsOutside }
    ensures incomplete { (misses : Counts) (refusal : Denial) (found : List (List ℕ))
        → TellsAll (L.file library.old)
        → IsRefused (L.file library.old) class.now misses refusal found → IsErr result }

    ensures same_files { (other : List ℕ) → L.file library.new other ≡ L.file library.old other }
    ensures faults_stay { L.faults library.old ≤ L.faults library.new }
    ensures misses_stay { L.misses library.old ≤ L.misses library.new }
{
    one_loading();
    one_outcome();
    load_all(alloc, library, class, names)
}

/// The same, without what a library that tells of each name decides.
fn load_all<L: Library>(
    alloc: Global,
    library: &mut L,
    class: &str,
    names: &mut Names,
) -> Result<FileSet, LoadFault>
    requires { file_names names.old ≡ [] }
    ensures loaded { IfOk result (λ set. HoldsLoaded (L.file library.old) class.now (sources set)
        (file_names names.new)) }
    ensures fault { IfErr result (IsFault (L.file library.old) class.now
        (record { old = L.misses library.old; new = L.misses library.new })
        (record { old = L.faults library.old; new = L.faults library.new })
        (file_names names.new)) }
    ensures same_files { (other : List ℕ) → L.file library.new other ≡ L.file library.old other }
    ensures faults_stay { L.faults library.old ≤ L.faults library.new }
    ensures misses_stay { L.misses library.old ≤ L.misses library.new }
{
    let mut loading = Loading {
        set: FileSet::new(alloc)?,
        bytes: 0,
        waiting: first_requests(alloc, class)?,
    };
    'files: while let Some(request) = next_unread(&loading.set, &mut loading.waiting) {
        match read_file(alloc, library, &request, names, &mut loading) {
            Ok(()) => {}
            Err(fault) => return Err(fault),
        }
    }
    Ok(loading.set)
}
