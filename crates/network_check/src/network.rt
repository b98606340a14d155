//! The call for the network of a top, checked.

ghost use Rattle.std.specs.Prelude.{◌≡◌, ◌≤◌, ℕ, List, [], IfErr, IfOk, IsErr, MatchResult};
ghost use Rattle.rvc_base.specs.declared.refusal.Refusal.{Refusal as Denial};
ghost use Rattle.cal_files.specs.Loading.{Counts, TellsAll};
ghost use Rattle.cal_files.specs.Views.{file_names};
ghost use Rattle.cal_model.specs.Selection.{State};
ghost use Rattle.net_model.specs.Network.{Network};
ghost use Rattle.fnl_source.specs.Library.{IsLibraryNetwork};
ghost use Rattle.network_check.specs.Checked.{CountsMisses, HasNetwork, IsChecked};
ghost use Rattle.network_check.specs.Refused.{IsFault, IsOutside, RefusesTop};
ghost use Rattle.network_check.specs.Top.{top_asked};

use crate::checked::Checked;
use crate::fault::BuildFault;
use crate::held::Held;
use crate::laws::networks_are_not_refused;
use crate::loading::held_of_top;
use cal_files::Names;
use fnl_source::one_library_network;
use rvc_io::Library;
use std::alloc::Global;

/// The network of a top, checked. The top is the name of a file, as `p/q/Net.xdf` for a network and `p/q/A.cal` for an
/// actor, which is then the one leaf of a network with its own ports. Its file and those of all that it asks for are read,
/// as [`load_network`](fnl_files::load_network) says, the networks are bound, each actor is checked over the values that
/// it is given, and all are joined. `names` gets the names of the files.
///
/// What is given is the source network of the files (`checked`). An actor within a network was looked up as a network first,
/// so a miss was counted (`missed`). If the library tells of each name and has a network of the top, that one is given
/// (`complete`), and a top that is refused isn't given (`incomplete`), unless a reading fails or memory runs out.
///
/// # Errors
///
/// `Refused`: a file that is asked for can't be read, or breaks a rule of its language; or the networks, a rule of scope, an
/// actor or the connections do, in this order. `ReadFault`: the reading of this file failed, and the failure was counted.
/// `Memory`: an allocation was refused (`fault`).
pub fn check_network<L: Library>(
    alloc: Global,
    library: &mut L,
    top: &str,
    names: &mut Names,
) -> Result<Checked, BuildFault>
    requires fresh { file_names names.old ≡ [] }
    ensures checked { IfOk result (IsChecked (L.file library.old) (top_asked top.now)
        (file_names names.new)) }
    ensures missed { IfOk result (λ c. CountsMisses (top_asked top.now)
        (record { old = L.misses library.old; new = L.misses library.new }) c.flat) }
    ensures fault { IfErr result (IsFault (L.file library.old) (top_asked top.now)
        (record { old = L.misses library.old; new = L.misses library.new })
        (record { old = L.faults library.old; new = L.faults library.new })
        (file_names names.new)) }

    // What a library that tells of each name decides.
    ensures complete { (net : Network State) → TellsAll (L.file library.old)
        → IsLibraryNetwork (L.file library.old) (top_asked top.now) net
        → MatchResult result (λ c. HasNetwork c net) IsOutside }
    ensures incomplete { (misses : Counts) (refusal : Denial) (found : List (List ℕ))
        → TellsAll (L.file library.old)
        → RefusesTop (L.file library.old) (top_asked top.now) misses found refusal → IsErr result }

    ensures same_files { (other : List ℕ) → L.file library.new other ≡ L.file library.old other }
    ensures faults_stay { L.faults library.old ≤ L.faults library.new }
    ensures misses_stay { L.misses library.old ≤ L.misses library.new }
{
    networks_are_not_refused();
    one_library_network();
    match held_of_top(alloc, library, top, names) {
        Ok(
            Held {
                files: _files,
                checked,
            },
        ) => Ok(checked),
        Err(fault) => Err(fault),
    }
}
