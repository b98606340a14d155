//! The call for the files of a network.

ghost use Rattle.std.specs.Prelude.{◌≡◌, ◌≤◌, ℕ, List, [], IfErr, IfOk, IsErr, MatchResult, length};
ghost use Rattle.rvc_base.specs.declared.refusal.Refusal.{Refusal as Denial};
ghost use Rattle.cal_files.specs.Loading.{Counts, TellsAll, max_bytes, max_files};
ghost use Rattle.cal_files.specs.Views.{IsOutside, file_names};
ghost use Rattle.fnl_source.specs.Files.{AreLoaded, Read};
ghost use Rattle.fnl_files.specs.Loading.{IsRefused};
ghost use Rattle.fnl_files.specs.SoFar.{IsBegun, IsNext, seen, state_of};
ghost use Rattle.fnl_files.specs.Views.{HasFile, HoldsFiles, HoldsLoaded, IsFault, asked_of, files_in};

use crate::files::NetworkFiles;
use crate::kind::FileKind;
use crate::laws::one_outcome;
use crate::loading::Loading;
use crate::requests::first_requests;
use crate::taking::take;
use cal_files::{LoadFault, Names};
use cal_imports::FileSet;
use cal_scope::NameSet;
use fnl_bind::NetSet;
use fnl_source::one_library_network;
use rvc_io::Library;
use std::alloc::Global;

/// Reads the file of the top, and each file that is asked for from there on, once. The top is a class, and which of its
/// files is meant. The files have numbers from 1 in this order, and `names` gets the name of file k at place k - 1, also
/// that of a file that is found and refused, or of a name whose reading fails.
///
/// Of the class of an instance the file of its network is looked up first. Whether it is there is asked once: if it was
/// missed, the class is an actor from then on (`loaded`).
///
/// If the library tells of each name, files that can all be read are read (`complete`), and files of which one is refused
/// aren't (`incomplete`), unless a reading fails or memory runs out.
///
/// # Errors
///
/// `Refused`: there is no file of the class, or of a class that an instance or an import asks for; a file or all together
/// pass a limit; or a text breaks a rule of its language. `ReadFault`: the reading of this file failed, and the failure
/// was counted. `Memory`: an allocation was refused (`fault`).
pub fn load_network<L: Library>(
    alloc: Global,
    library: &mut L,
    top: &str,
    kind: FileKind,
    names: &mut Names,
) -> Result<NetworkFiles, LoadFault>
    requires { file_names names.old ≡ [] }
    ensures loaded { IfOk result (λ files. HoldsLoaded (L.file library.old) (asked_of top.now kind)
        (record { old = L.misses library.old; new = L.misses library.new })
        (files_in files) (file_names names.new)) }
    ensures has_top { IfOk result (λ files. HasFile (asked_of top.now kind) (files_in files)) }
    ensures fault { IfErr result (IsFault (L.file library.old) (asked_of top.now kind)
        (record { old = L.misses library.old; new = L.misses library.new })
        (record { old = L.faults library.old; new = L.faults library.new })
        (file_names names.new)) }

    // What a library that tells of each name decides.
    ensures complete { (reads : List Read) → TellsAll (L.file library.old)
        → AreLoaded (L.file library.old) (asked_of top.now kind) reads
        → MatchResult result (λ files. HoldsFiles reads (files_in files) (file_names names.new))
        IsOutside }
    ensures incomplete { (misses : Counts) (refusal : Denial) (found : List (List ℕ))
        → TellsAll (L.file library.old)
        → IsRefused (L.file library.old) (asked_of top.now kind) misses refusal found
        → IsErr result }

    ensures same_files { (other : List ℕ) → L.file library.new other ≡ L.file library.old other }
    ensures faults_stay { L.faults library.old ≤ L.faults library.new }
    ensures misses_stay { L.misses library.old ≤ L.misses library.new }
{
    one_library_network();
    one_outcome();
    load_all(alloc, library, top, kind, names)
}

/// The same, without what a library that tells of each name decides.
fn load_all<L: Library>(
    alloc: Global,
    library: &mut L,
    top: &str,
    kind: FileKind,
    names: &mut Names,
) -> Result<NetworkFiles, LoadFault>
    requires { file_names names.old ≡ [] }
    ensures loaded { IfOk result (λ files. HoldsLoaded (L.file library.old) (asked_of top.now kind)
        (record { old = L.misses library.old; new = L.misses library.new })
        (files_in files) (file_names names.new)) }
    ensures fault { IfErr result (IsFault (L.file library.old) (asked_of top.now kind)
        (record { old = L.misses library.old; new = L.misses library.new })
        (record { old = L.faults library.old; new = L.faults library.new })
        (file_names names.new)) }
    ensures same_files { (other : List ℕ) → L.file library.new other ≡ L.file library.old other }
    ensures faults_stay { L.faults library.old ≤ L.faults library.new }
    ensures misses_stay { L.misses library.old ≤ L.misses library.new }
{
    let mut loading = first_loading(alloc, top, kind)?;
    'files: loop {
        match read_next(alloc, library, names, &mut loading) {
            Ok(true) => {}
            Ok(false) => return Ok(loading.files),
            Err(fault) => return Err(fault),
        }
    }
}

/// Nothing was read, and the top is asked for.
fn first_loading(alloc: Global, top: &str, kind: FileKind) -> Result<Loading, LoadFault>
    ensures begun { IfOk result (λ loading. IsBegun (asked_of top.now kind) (state_of loading)) }
    ensures memory { IfErr result (λ fault. fault ≡ LoadFault.Memory) }
{
    Ok(Loading {
        files: NetworkFiles {
            networks: NetSet::new(alloc)?,
            sources: FileSet::new(alloc)?,
        },
        bytes: 0,
        missed: NameSet::new(alloc),
        waiting: first_requests(alloc, top, kind)?,
    })
}

/// Reads the next file that is asked for. False if all of them were read.
fn read_next<L: Library>(
    alloc: Global,
    library: &mut L,
    names: &mut Names,
    loading: &mut Loading,
) -> Result<bool, LoadFault>
    requires few { length names.old.files.items ≤ max_files }
    requires small { loading.old.bytes ≤ max_bytes }
    ensures next { IsNext
        (seen (L.file library.old) (L.faults library.old) (L.misses library.old)
        (file_names names.old) (state_of loading.old))
        (seen (L.file library.new) (L.faults library.new) (L.misses library.new)
        (file_names names.new) (state_of loading.new)) result }
    ensures same_files { (other : List ℕ) → L.file library.new other ≡ L.file library.old other }
    ensures faults_stay { L.faults library.old ≤ L.faults library.new }
    ensures misses_stay { L.misses library.old ≤ L.misses library.new }
{
    'requests: while let Some(request) = loading.waiting.pop_front() {
        match take(alloc, library, &request, names, loading) {
            Ok(true) => return Ok(true),
            Ok(false) => {}
            Err(fault) => return Err(fault),
        }
    }
    Ok(false)
}
