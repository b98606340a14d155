//! The call of the verb.

ghost use Rattle.std.specs.Prelude.{◌≡◌, ◌≤◌, ℕ, true, List, map, string_bytes};
ghost use Rattle.rvc_base.specs.declared.refusal.Refusal.{Refusal as Denial};
ghost use Rattle.rvc_io.specs.Channels.{WritesOnlyAt};
ghost use Rattle.rvc_io.specs.Feeds.{Inputs};
ghost use Rattle.rvc_words.specs.Words.{port_text};
ghost use Rattle.cal_files.specs.Loading.{Counts, TellsAll};
ghost use Rattle.cal_model.specs.Selection.{State};
ghost use Rattle.cmd_network.specs.Conforming.{ConformsWith, no_ports};
ghost use Rattle.net_model.specs.Network.{Network};
ghost use Rattle.network_check.specs.Top.{top_asked};
ghost use Rattle.cmd_network.specs.Answers.{IsAnswered};
ghost use Rattle.cmd_network.specs.Commands.{RefusesJob, command, met_by};
ghost use Rattle.cmd_certify.specs.Ends.{Comes, IsDecided, IsUndecided};

use crate::certifying::certify_files;
use cmd_network::conforming_jobs_are_not_refused;
use cmd_report::{REPORT_CHANNEL, Status};
use fnl_source::{one_library_network, one_network};
use rvc_io::{Drains, Library};
use rvc_words::Job;
use std::alloc::Global;

/// Certifies the actors of a job. The files of its top are read and checked, as
/// [`check_network`](network_check::check_network) says; then the first port word is refused, if there is one, since no port is
/// opened; the actor of each leaf is judged by the certification rule, as [`certify`](determinacy_cert::certify) says; and
/// the report is put on channel 0 (`answered`, whatever feeds there are, which stay as they are). No channel is opened, and
/// no other is written (`only_report`).
///
/// `Done` says that the files conform, there is no port word, and each actor is certified; the report has how many leaves
/// these are. If the library tells of each name, and they conform, the answer is `Done` if each actor is certified and else
/// `Uncertified`, unless memory runs out or reading or writing fails (`complete`); and what is refused is neither
/// (`incomplete`).
///
/// # Errors
///
/// `Uncertified` names the lowest leaf whose actor isn't certified and the first failure of the rule there, and its report
/// has how many leaves have a certified actor. `Refused`: a rule is broken in the files, or there is a port word.
/// `ReadFault` of a file: its reading failed, and the failure was counted. `OutOfMemory`: an allocation was refused. The
/// report says which. `WriteFault` of channel 0: the report couldn't be put, and the failure was counted (`answered`).
pub fn certify_job<L: Library, D: Drains>(
    alloc: Global,
    job: &Job,
    library: &mut L,
    drains: &mut D,
) -> Status
    requires report_open { (D.channels drains.old).is_open REPORT_CHANNEL ≡ true }
    ensures answered { (feeds : Inputs) → IsAnswered Comes
        (command (met_by L.file L.misses L.faults (λ seen. seen) D.channels library.old library.new
        feeds feeds drains.old drains.new) job.now) result }

    // What a library that tells of each name decides.
    ensures complete { (net : Network State) → TellsAll (L.file library.old)
        → (conforms : ConformsWith no_ports (L.file library.old)
        (top_asked (string_bytes job.now.top)) (map port_text job.now.ports.items) net)
        → IsDecided conforms.means.means.actors result }
    ensures incomplete { (misses : Counts) (names : List (List ℕ)) (refusal : Denial)
        → TellsAll (L.file library.old)
        → RefusesJob no_ports (L.file library.old) (top_asked (string_bytes job.now.top))
        (map port_text job.now.ports.items) misses names refusal
        → IsUndecided result }

    // What stays.
    ensures only_report { WritesOnlyAt REPORT_CHANNEL (D.channels drains.old)
        (D.channels drains.new) }
    ensures same_files { (other : List ℕ) → L.file library.new other ≡ L.file library.old other }
    ensures faults_stay { L.faults library.old ≤ L.faults library.new }
    ensures misses_stay { L.misses library.old ≤ L.misses library.new }
{
    conforming_jobs_are_not_refused();
    one_library_network();
    one_network();
    certify_files(alloc, job, library, drains)
}
