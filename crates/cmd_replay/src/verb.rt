//! The verb.

ghost use Rattle.std.specs.Prelude.{◌≡◌, ◌≤◌, ℕ, List, false, true, string_bytes};
ghost use Rattle.rvc_words.specs.Words.{IsWithin, job_text};
ghost use Rattle.cal_model.specs.Selection.{State};
ghost use Rattle.net_model.specs.Network.{Network};
ghost use Rattle.rvc_base.specs.declared.refusal.Refusal.{Refusal as Denial};
ghost use Rattle.cal_files.specs.Loading.{Counts, TellsAll};
ghost use Rattle.network_check.specs.Top.{top_asked};
ghost use Rattle.cmd_network.specs.Answers.{IsAnswered};
ghost use Rattle.cmd_network.specs.Commands.{command, met_by};
ghost use Rattle.cmd_run_network.specs.Network.{words_of};
ghost use Rattle.cmd_run_network.specs.Names.{FeedsOpened};
ghost use Rattle.cmd_replay.specs.Asked.{ComesAsAsked};
ghost use Rattle.cmd_replay.specs.Ends.{Comes, IsJudgedOrOutside, IsNoVerdict};
ghost use Rattle.cmd_replay.specs.Replays.{ConformsToReplay, RefusesReplay};

use crate::image::replay_image;
use cal_files::Names;
use cmd_network::{conforming_jobs_are_not_refused, report_unbuilt, status_of_build};
use cmd_report::Status;
use fnl_source::one_library_network;
use net_cells::cells_run_as_sources;
use rvc_engine::build;
use rvc_io::{Drains, Feeds, Library};
use rvc_words::Job;
use std::alloc::Global;

/// Replays the trace that a job names over the network that a library has of its top, and puts the report on channel 0.
///
/// The files of the top are read and compiled, as [`build`] says, and the port words are matched with the network's inputs.
/// Then the feeds are opened: 0 under the trace's name, and one for each link from an input that has a file, in the order of
/// links. The trace is judged over them, and the report is written. Its policy, burst, budget and workers change nothing. No
/// channel is opened, and none is written but that of the report.
///
/// - `answered`: what the status says. If it is `Done`, there is a network that the files mean and whose inputs the words
///   name (`IsToReplay`). Whatever bytes its inputs have and whatever the trace is, by what feeds tell: the trace is the text
///   of lines that play from the network's start, keep the capacities of its links and end in an end line; and the report has
///   the numbers of these lines (`WasRun`). If it is `NotRun`, the trace is the text of no such lines: with the line that is
///   named, and for the cause that is named, what stands before it is no longer that of a run (`WasNoRun`).
/// - `as_asked`: besides, feed 0 was opened under the name of the trace, and then a feed for each input link whose input has a
///   file, under the name that its word gives it, in the order of links; no other feed was opened (`ComesAsAsked`).
/// - `complete`: if the library tells of each name and conforms with the words, and the links may grow as far as the job
///   asks, the answer is one of these two over this network, unless memory runs out, or reading or writing fails.
/// - `incomplete`: if the library tells of each name, a job that is refused is never answered by one of these two.
/// - `same_files`, `faults_stay`, `misses_stay`: the library keeps its files, and its counts never fall.
///
/// # Errors
///
/// Each has its case in `answered`, with what it leaves.
///
/// - `Refused`: what [`build`] is refused for; the first port word that names no input, or one that a word before it names;
///   or Z12 at the command line, if the links would hold too much once they grew as far as the job asks. `ReadFault` of a
///   file: that reading failed, and was counted. With these nothing is opened.
/// - `ReadFault` of a feed, which was counted: it couldn't be opened or read. 0 is the trace.
/// - `OutOfMemory`: an allocation was refused.
/// - `WriteFault` of channel 0, which was counted: the report couldn't be put, of which the channel has a prefix.
pub fn replay_job<L: Library, F: Feeds, D: Drains>(
    alloc: Global,
    job: &Job,
    library: &mut L,
    feeds: &mut F,
    drains: &mut D,
) -> Status
    requires within { IsWithin (job_text job.now) }
    requires feeds_closed { (n : ℕ) → (F.feeds feeds.old).is_open n ≡ false }
    requires report_open { (D.channels drains.old).is_open 0 ≡ true }
    ensures answered { IsAnswered Comes (command (met_by L.file L.misses L.faults F.feeds D.channels
        library.old library.new feeds.old feeds.new drains.old drains.new) job.now) result }
    ensures as_asked { IsAnswered (ComesAsAsked (FeedsOpened F.feeds F.past feeds.old feeds.new))
        (command (met_by L.file L.misses L.faults F.feeds D.channels
        library.old library.new feeds.old feeds.new drains.old drains.new) job.now) result }
    ensures complete { (net : Network State) → TellsAll (L.file library.old)
        → ConformsToReplay (L.file library.old) (top_asked (string_bytes job.now.top))
        (words_of job.now) job.now.grow net
        → IsJudgedOrOutside (command (met_by L.file L.misses L.faults F.feeds D.channels
        library.old library.new feeds.old feeds.new drains.old drains.new) job.now) net result }
    ensures incomplete { (misses : Counts) (found : List (List ℕ)) (r : Denial)
        → TellsAll (L.file library.old)
        → RefusesReplay (L.file library.old) (top_asked (string_bytes job.now.top))
        (words_of job.now) job.now.grow misses found r
        → IsNoVerdict result }
    ensures same_files { (other : List ℕ) → L.file library.new other ≡ L.file library.old other }
    ensures faults_stay { L.faults library.old ≤ L.faults library.new }
    ensures misses_stay { L.misses library.old ≤ L.misses library.new }
{
    conforming_jobs_are_not_refused();
    one_library_network();
    let mut names = Names::new(alloc);
    match build(alloc, library, job.top.as_str(), &mut names) {
        Ok(image) => {
            cells_run_as_sources();
            replay_image(alloc, &image, &names, job, feeds, drains)
        }
        Err(fault) => report_unbuilt(status_of_build(fault), &names, job, drains),
    }
}
