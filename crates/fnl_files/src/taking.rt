//! A request is looked at: its file is read, unless it was.

ghost use Rattle.std.specs.Prelude.{◌≡◌, ◌≤◌, ℕ, List, IfErr, IfOk, false, length, true};
ghost use Rattle.cal_imports.specs.View.{sources};
ghost use Rattle.cal_scope.specs.Names.{is_among};
ghost use Rattle.cal_files.specs.Loading.{max_bytes, max_files};
ghost use Rattle.cal_files.specs.Views.{file_names};
ghost use Rattle.fnl_bind.specs.View.{networks};
ghost use Rattle.fnl_files.specs.Requests as plain;
ghost use Rattle.fnl_source.specs.Files.{a_class};
ghost use Rattle.fnl_files.specs.SoFar.{Halts, IsHeld, IsStopped, IsTaken, IsTried, Takes, has, request_of, state_of, trial_of, with_missed};

use crate::adding::{add_text, has};
use crate::kind::FileKind;
use crate::loading::{Loading, note_missed};
use crate::reading::read_text;
use crate::requests::Request;
use cal_files::{LoadFault, Names, next_number};
use rvc_base::{Memory, Refusal};
use rvc_io::Library;
use std::alloc::Global;

/// Reads the file of a class, which wasn't read, and adds what it says. False if it is missing.
fn try_file<L: Library>(
    alloc: Global,
    library: &mut L,
    class: &str,
    network: bool,
    names: &mut Names,
    loading: &mut Loading,
) -> Result<bool, LoadFault>
    requires unread { has (record { class = class.now; network = network })
        (networks loading.old.files.networks) (sources loading.old.files.sources) ≡ false }
    requires few { length names.old.files.items ≤ max_files }
    requires small { loading.old.bytes ≤ max_bytes }
    ensures tried { IfOk result (IsTried
        (trial_of (L.file library.old) (record { class = class.now; network = network })
        (file_names names.old))
        (record { old = L.misses library.old; new = L.misses library.new })
        (file_names names.new) (state_of loading.old) (state_of loading.new)) }
    ensures stopped { IfErr result (IsStopped
        (trial_of (L.file library.old) (record { class = class.now; network = network })
        (file_names names.old)) loading.old.bytes
        (record { old = L.faults library.old; new = L.faults library.new })
        (file_names names.new)) }
    ensures same_files { (other : List ℕ) → L.file library.new other ≡ L.file library.old other }
    ensures faults_stay { L.faults library.old ≤ L.faults library.new }
    ensures misses_stay { L.misses library.old ≤ L.misses library.new }
{
    let number = next_number(names);
    match read_text(alloc, library, class, network, names) {
        Ok(Some(text)) => {
            match add_text(alloc, loading, class, network, number, text.as_slice()) {
                Ok(()) => Ok(true),
                Err(fault) => Err(fault),
            }
        }
        Ok(None) => Ok(false),
        Err(fault) => Err(fault),
    }
}

/// Reads the file of a class, if it wasn't read, and adds what it says. False if it was read.
fn take_file<L: Library>(
    alloc: Global,
    library: &mut L,
    class: &str,
    network: bool,
    missing: Refusal,
    names: &mut Names,
    loading: &mut Loading,
) -> Result<bool, LoadFault>
    requires few { length names.old.files.items ≤ max_files }
    requires small { loading.old.bytes ≤ max_bytes }
    ensures taken { IfOk result (IsTaken
        (trial_of (L.file library.old) (record { class = class.now; network = network })
        (file_names names.old))
        (file_names names.new) (state_of loading.old) (state_of loading.new)) }
    ensures held { IfErr result (IsHeld
        (trial_of (L.file library.old) (record { class = class.now; network = network })
        (file_names names.old)) missing (state_of loading.old)
        (record { old = L.misses library.old; new = L.misses library.new })
        (record { old = L.faults library.old; new = L.faults library.new })
        (file_names names.new)) }
    ensures same_files { (other : List ℕ) → L.file library.new other ≡ L.file library.old other }
    ensures faults_stay { L.faults library.old ≤ L.faults library.new }
    ensures misses_stay { L.misses library.old ≤ L.misses library.new }
{
    if has(loading, class, network) {
        return Ok(false);
    }
    match try_file(alloc, library, class, network, names, loading) {
        Ok(true) => Ok(true),
        Ok(false) => Err(LoadFault::Refused(missing)),
        Err(fault) => Err(fault),
    }
}

/// Notes that a class has no network, and reads the file of its actor, if it wasn't read, as [`take_file`].
fn take_actor<L: Library>(
    alloc: Global,
    library: &mut L,
    class: &str,
    missing: Refusal,
    names: &mut Names,
    loading: &mut Loading,
) -> Result<bool, LoadFault>
    requires few { length names.old.files.items ≤ max_files }
    requires small { loading.old.bytes ≤ max_bytes }
    ensures taken { IfOk result (IsTaken
        (trial_of (L.file library.old) (record { class = class.now; network = false })
        (file_names names.old))
        (file_names names.new) (with_missed class.now (state_of loading.old))
        (state_of loading.new)) }
    ensures held { IfErr result (IsHeld
        (trial_of (L.file library.old) (record { class = class.now; network = false })
        (file_names names.old)) missing (with_missed class.now (state_of loading.old))
        (record { old = L.misses library.old; new = L.misses library.new })
        (record { old = L.faults library.old; new = L.faults library.new })
        (file_names names.new)) }
    ensures same_files { (other : List ℕ) → L.file library.new other ≡ L.file library.old other }
    ensures faults_stay { L.faults library.old ≤ L.faults library.new }
    ensures misses_stay { L.misses library.old ≤ L.misses library.new }
{
    match note_missed(loading, class) {
        Ok(()) => take_file(alloc, library, class, false, missing, names, loading),
        Err(Memory) => Err(LoadFault::Memory),
    }
}

/// Reads the file of a class of which no network was looked up: of its network if the library has it, and else of its
/// actor, if it wasn't read.
fn take_new<L: Library>(
    alloc: Global,
    library: &mut L,
    class: &str,
    missing: Refusal,
    names: &mut Names,
    loading: &mut Loading,
) -> Result<bool, LoadFault>
    requires unread { has (record { class = class.now; network = true })
        (networks loading.old.files.networks) (sources loading.old.files.sources) ≡ false }
    requires untried { is_among class.now loading.old.missed ≡ false }
    requires few { length names.old.files.items ≤ max_files }
    requires small { loading.old.bytes ≤ max_bytes }
    ensures taken { IfOk result (Takes (L.file library.old)
        (record { asked = a_class class.now; missing = missing })
        (record { old = L.misses library.old; new = L.misses library.new })
        (file_names names.old) (file_names names.new)
        (state_of loading.old) (state_of loading.new)) }
    ensures halted { IfErr result (Halts (L.file library.old)
        (record { asked = a_class class.now; missing = missing })
        (record { old = L.misses library.old; new = L.misses library.new })
        (record { old = L.faults library.old; new = L.faults library.new })
        (file_names names.old) (file_names names.new) (state_of loading.old)) }
    ensures same_files { (other : List ℕ) → L.file library.new other ≡ L.file library.old other }
    ensures faults_stay { L.faults library.old ≤ L.faults library.new }
    ensures misses_stay { L.misses library.old ≤ L.misses library.new }
{
    match try_file(alloc, library, class, true, names, loading) {
        Ok(true) => Ok(true),
        Ok(false) => take_actor(alloc, library, class, missing, names, loading),
        Err(fault) => Err(fault),
    }
}

/// Reads the file of a class, of its network if the library has it, and else of its actor, if it wasn't read, and adds
/// what it says. False if it was read.
fn take_either<L: Library>(
    alloc: Global,
    library: &mut L,
    class: &str,
    missing: Refusal,
    names: &mut Names,
    loading: &mut Loading,
) -> Result<bool, LoadFault>
    requires few { length names.old.files.items ≤ max_files }
    requires small { loading.old.bytes ≤ max_bytes }
    ensures taken { IfOk result (Takes (L.file library.old)
        (record { asked = a_class class.now; missing = missing })
        (record { old = L.misses library.old; new = L.misses library.new })
        (file_names names.old) (file_names names.new)
        (state_of loading.old) (state_of loading.new)) }
    ensures halted { IfErr result (Halts (L.file library.old)
        (record { asked = a_class class.now; missing = missing })
        (record { old = L.misses library.old; new = L.misses library.new })
        (record { old = L.faults library.old; new = L.faults library.new })
        (file_names names.old) (file_names names.new) (state_of loading.old)) }
    ensures same_files { (other : List ℕ) → L.file library.new other ≡ L.file library.old other }
    ensures faults_stay { L.faults library.old ≤ L.faults library.new }
    ensures misses_stay { L.misses library.old ≤ L.misses library.new }
{
    if loading.missed.has(class) {
        take_file(alloc, library, class, false, missing, names, loading)
    } else if has(loading, class, true) {
        Ok(false)
    } else {
        take_new(alloc, library, class, missing, names, loading)
    }
}

/// Reads the file of a request, if it wasn't read, and adds what it says. False if it was read.
pub(crate) fn take<L: Library>(
    alloc: Global,
    library: &mut L,
    request: &Request,
    names: &mut Names,
    loading: &mut Loading,
) -> Result<bool, LoadFault>
    requires few { length names.old.files.items ≤ max_files }
    requires small { loading.old.bytes ≤ max_bytes }
    ensures taken { IfOk result (Takes (L.file library.old) (request_of request.now)
        (record { old = L.misses library.old; new = L.misses library.new })
        (file_names names.old) (file_names names.new)
        (state_of loading.old) (state_of loading.new)) }
    ensures halted { IfErr result (Halts (L.file library.old) (request_of request.now)
        (record { old = L.misses library.old; new = L.misses library.new })
        (record { old = L.faults library.old; new = L.faults library.new })
        (file_names names.old) (file_names names.new) (state_of loading.old)) }
    ensures same_files { (other : List ℕ) → L.file library.new other ≡ L.file library.old other }
    ensures faults_stay { L.faults library.old ≤ L.faults library.new }
    ensures misses_stay { L.misses library.old ≤ L.misses library.new }
{
    let class = request.class.as_str();
    match request.kind {
        FileKind::Network => {
            take_file(alloc, library, class, true, request.missing, names, loading)
        }
        FileKind::Actor => {
            take_file(
                alloc,
                library,
                class,
                false,
                request.missing,
                names,
                loading,
            )
        }
        FileKind::Either => take_either(alloc, library, class, request.missing, names, loading),
    }
}
