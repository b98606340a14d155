//! The files of a top, with what is checked of them.

ghost use Rattle.std.specs.Prelude.{◌≡◌, ◌≤◌, ℕ, List, [], IfErr, IfOk};
ghost use Rattle.cal_files.specs.Views.{file_names};
ghost use Rattle.fnl_files.specs.Views.{asked_of};
ghost use Rattle.network_check.specs.Refused.{IsFault};
ghost use Rattle.network_check.specs.Steps.{IsHeld};
ghost use Rattle.network_check.specs.Top.{top_asked};

use crate::checking::check_files;
use crate::fault::{BuildFault, of_front, of_load};
use crate::held::Held;
use crate::top::kind_of;
use cal_files::{Names, class_of};
use fnl_files::{FileKind, leaves_have_files, load_network};
use law_sources::network_files_are_spelled;
use rvc_base::Memory;
use rvc_io::Library;
use std::alloc::Global;

/// The files of a top, with the network that they mean. `names` gets the names of the files.
///
/// # Errors
///
/// `Refused`: the top is refused. `ReadFault`: the reading of this file failed, and the failure was counted. `Memory`: an
/// allocation was refused (`fault`).
pub fn held_of_top<L: Library>(
    alloc: Global,
    library: &mut L,
    top: &str,
    names: &mut Names,
) -> Result<Held, BuildFault>
    requires fresh { file_names names.old ≡ [] }
    ensures held { IfOk result (IsHeld (L.file library.old) (top_asked top.now)
        (record { old = L.misses library.old; new = L.misses library.new })
        (file_names names.new)) }
    ensures fault { IfErr result (IsFault (L.file library.old) (top_asked top.now)
        (record { old = L.misses library.old; new = L.misses library.new })
        (record { old = L.faults library.old; new = L.faults library.new })
        (file_names names.new)) }
    ensures same_files { (other : List ℕ) → L.file library.new other ≡ L.file library.old other }
    ensures faults_stay { L.faults library.old ≤ L.faults library.new }
    ensures misses_stay { L.misses library.old ≤ L.misses library.new }
{
    match class_of(alloc, top) {
        Ok(class) => held_of_class(alloc, library, class.as_str(), kind_of(top), names),
        Err(Memory) => Err(BuildFault::Memory),
    }
}

/// The same of a class, and of which file of it is meant.
fn held_of_class<L: Library>(
    alloc: Global,
    library: &mut L,
    class: &str,
    kind: FileKind,
    names: &mut Names,
) -> Result<Held, BuildFault>
    requires fresh { file_names names.old ≡ [] }
    ensures held { IfOk result (IsHeld (L.file library.old) (asked_of class.now kind)
        (record { old = L.misses library.old; new = L.misses library.new })
        (file_names names.new)) }
    ensures fault { IfErr result (IsFault (L.file library.old) (asked_of class.now kind)
        (record { old = L.misses library.old; new = L.misses library.new })
        (record { old = L.faults library.old; new = L.faults library.new })
        (file_names names.new)) }
    ensures same_files { (other : List ℕ) → L.file library.new other ≡ L.file library.old other }
    ensures faults_stay { L.faults library.old ≤ L.faults library.new }
    ensures misses_stay { L.misses library.old ≤ L.misses library.new }
{
    network_files_are_spelled();
    leaves_have_files();
    match load_network(alloc, library, class, kind, names) {
        Ok(files) => match check_files(alloc, &files, class) {
            Ok(checked) => Ok(Held { files, checked }),
            Err(front) => Err(of_front(front)),
        },
        Err(fault) => Err(of_load(fault)),
    }
}
