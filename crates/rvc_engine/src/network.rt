//! The call for the compiled network of a top.

ghost use Rattle.std.specs.Prelude.{◌≡◌, ◌≤◌, ℕ, List, [], IfErr, IfOk, IsErr, MatchResult};
ghost use Rattle.rvc_base.specs.declared.refusal.Refusal.{Refusal as Denial};
ghost use Rattle.cal_files.specs.Loading.{Counts, TellsAll};
ghost use Rattle.cal_files.specs.Views.{file_names};
ghost use Rattle.cal_model.specs.Selection.{State};
ghost use Rattle.net_model.specs.Network.{Network};
ghost use Rattle.network_check.specs.Checked.{CountsMisses};
ghost use Rattle.network_check.specs.Refused.{IsFault, IsOutside, RefusesTop};
ghost use Rattle.network_check.specs.Top.{top_asked};
ghost use Rattle.fnl_source.specs.Library.{IsLibraryNetwork};
ghost use Rattle.rvc_engine.specs.Built.{IsBuilt};
ghost use Rattle.rvc_engine.specs.Images.{MeansNet};

use crate::building::image_of;
use crate::image::Image;
use cal_files::Names;
use fnl_source::one_library_network;
use network_check::{BuildFault, Held, held_of_top, networks_are_not_refused};
use rvc_io::Library;
use std::alloc::Global;

/// The compiled network of a top: its files are read and checked as [`check_network`](network_check::check_network) does, each
/// distinct actor is lowered once and certified once, and its code stands for it at each of its leaves. An image means the
/// source network of the files that were read (`built`), and misses are counted as there (`missed`).
///
/// If the library tells of each name and has a network of the top, that one is given (`complete`), and a top that is refused
/// isn't (`incomplete`), unless a reading fails or memory runs out.
///
/// # Errors
///
/// `Refused`: as [`check_network`](network_check::check_network) says. `ReadFault`: the reading of this file failed, and the failure was counted. `Memory`:
/// an allocation was refused, or the code of an actor is too large for any memory (`fault`).
pub fn build<L: Library>(
    alloc: Global,
    library: &mut L,
    top: &str,
    names: &mut Names,
) -> Result<Image, BuildFault>
    requires fresh { file_names names.old ≡ [] }
    ensures built { IfOk result (IsBuilt (L.file library.old) (top_asked top.now)
        (file_names names.new)) }
    ensures missed { IfOk result (λ image. CountsMisses (top_asked top.now)
        (record { old = L.misses library.old; new = L.misses library.new }) image.flat) }
    ensures fault { IfErr result (IsFault (L.file library.old) (top_asked top.now)
        (record { old = L.misses library.old; new = L.misses library.new })
        (record { old = L.faults library.old; new = L.faults library.new })
        (file_names names.new)) }

    // What a library that tells of each name decides.
    ensures complete { (net : Network State) → TellsAll (L.file library.old)
        → IsLibraryNetwork (L.file library.old) (top_asked top.now) net
        → MatchResult result (λ image. MeansNet image net) IsOutside }
    ensures incomplete { (misses : Counts) (refusal : Denial) (found : List (List ℕ))
        → TellsAll (L.file library.old)
        → RefusesTop (L.file library.old) (top_asked top.now) misses found refusal → IsErr result }

    ensures same_files { (other : List ℕ) → L.file library.new other ≡ L.file library.old other }
    ensures faults_stay { L.faults library.old ≤ L.faults library.new }
    ensures misses_stay { L.misses library.old ≤ L.misses library.new }
{
    networks_are_not_refused();
    one_library_network();
    match held_of_top(alloc, library, top, names) {
        Ok(Held { files, checked }) => image_of(alloc, &files, checked),
        Err(fault) => Err(fault),
    }
}
