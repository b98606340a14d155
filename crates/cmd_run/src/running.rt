//! The verb.

ghost use Rattle.std.specs.Prelude.{◌≡◌, ◌≢◌, ◌≤◌, ℕ, List, false, true, string_bytes};
ghost use Rattle.rvc_base.specs.declared.refusal.Refusal.{Refusal as Denial};
ghost use Rattle.rvc_words.specs.Words.{IsWithin, job_text};
ghost use Rattle.cal_files.specs.Loading.{Counts, TellsAll};
ghost use Rattle.cal_model.specs.Selection.{State};
ghost use Rattle.net_model.specs.Network.{Network};
ghost use Rattle.cmd_network.specs.Conforming.{Conforms, names_of_ports};
ghost use Rattle.cmd_run_network.specs.Growth.{GrowTooFar};
ghost use Rattle.network_check.specs.Top.{top_asked};
ghost use Rattle.cmd_run_network.specs.Network.{words_of};
ghost use Rattle.cmd_network.specs.Answers.{IsAnswered};
ghost use Rattle.cmd_network.specs.Commands.{RefusesJob, command, met_by};
ghost use Rattle.cmd_run_network.specs.Names.{ChannelsOpened, FeedsOpened};
ghost use Rattle.cmd_run.specs.Asked.{ComesAsAsked};
ghost use Rattle.cmd_run.specs.Ends.{Comes, ComesFor, IsNoEnd};

use crate::image::run_image;
use crate::laws::built_images_can_be_run;
use cal_files::Names;
use cmd_network::{
    conforming_jobs_are_not_refused, one_network_conforms, report_unbuilt, status_of_build,
};
use cmd_report::Status;
use fnl_source::one_library_network;
use rvc_engine::build;
use rvc_io::{Drains, Feeds, Gate, Library};
use rvc_words::Job;
use std::alloc::Global;
use std::thread::Threads;

/// Runs the network that a library has of a job's top, as the job asks, and puts the report on channel 0.
///
/// The files of the top are read and compiled, as [`build`] says, the port words are matched with the network's ports, and
/// it is tested how far the links may grow. All memory is taken before anything is opened. Then the feeds of inputs that have
/// a file are opened, in the order of links, and the channels: 1 for the trace, and 2 + k for output k if a word names a file
/// for it. The rounds go to an end, and the report is written last. `rt` is for the threads of more workers than one, and
/// `gate` is told when a worker starts.
///
/// - `answered`: what the status says. If it is `Quiet`, `Trapped`, `Stalled` or `Budget`, there is a network that the files
///   mean and whose ports the words name (`IsToRun`). Whatever bytes its inputs have, by what feeds tell: channel 1 holds
///   the text of lines that are paced by the job's policy, burst, budget and growth from the network's start, the last of
///   which is that end; the channel of each output that has a file holds the bytes of what was sent to it, and no other is
///   open; the report has the numbers of these lines (`Ran`). That no fault came is no premise.
/// - `as_asked`: besides, after such a run the feeds of inputs that have a file were opened, in the order of links, and the
///   channels: the trace's, and then those of outputs that have one; each under the name that the word gives it, and no other
///   was opened. It is said of any objects, also of real files. In each round of the run its workers have arrived at the gate,
///   of as many as the job asks for. If a feed or a channel couldn't be opened, those before it were (`ComesAsAsked`).
/// - `complete`: if the library tells of each name, and files and words conform to a network, then it is this network of
///   which the answer speaks: the job isn't refused, but for links that may grow too far.
/// - `incomplete` and `too_far`: if the library tells of each name, what is refused never comes to an end of a run: neither
///   files that break a rule, nor a port word that names no port of its own, nor links that may grow too far.
/// - `same_files`, `faults_stay`, `misses_stay`: the library keeps its files, and its counts never fall.
///
/// # Errors
///
/// Each has its case in `answered`, with what it leaves.
///
/// - `Refused`: what [`build`] is refused for; the first port word that names no port, or one that a word before it names; or
///   Z12 at the command line, for links that may grow too far. `ReadFault` of a file: that reading failed, and was counted.
///   `OutOfMemory`: an allocation was refused. With these nothing is opened, and no channel is written but that of the report.
/// - `ReadFault` of a feed, which was counted: it couldn't be opened, and no channel was; or it couldn't be read, and the
///   trace and the outputs have what begun lines give, without an end: those of all rounds that were made, behind which the
///   next delivery has to pull from this feed.
/// - `WriteFault`, which was counted: of channel 1 or an output's, and then each channel that was opened has a prefix of what
///   begun or paced lines give; of channel 0 if the report couldn't be put, of which it has a prefix, and then the others have
///   what they have by the status that couldn't be told.
pub fn run_job<R: Threads + Sync, L: Library, F: Feeds, D: Drains, G: Gate>(
    rt: &R,
    alloc: Global,
    job: &Job,
    library: &mut L,
    feeds: &mut F,
    drains: &mut D,
    gate: &G,
) -> Status
    requires within { IsWithin (job_text job.now) }
    requires feeds_closed { (n : ℕ) → (F.feeds feeds.old).is_open n ≡ false }
    requires channels_closed { (n : ℕ) → n ≢ 0 → (D.channels drains.old).is_open n ≡ false }
    requires report_open { (D.channels drains.old).is_open 0 ≡ true }

    ensures answered { IsAnswered Comes (command (met_by L.file L.misses L.faults F.feeds D.channels
        library.old library.new feeds.old feeds.new drains.old drains.new) job.now) result }
    ensures as_asked { IsAnswered (ComesAsAsked (FeedsOpened F.feeds F.past feeds.old feeds.new)
        (ChannelsOpened D.channels D.past drains.old drains.new) (G.arrived gate.now))
        (command (met_by L.file L.misses L.faults F.feeds D.channels
        library.old library.new feeds.old feeds.new drains.old drains.new) job.now) result }

    // What a library that tells of each name decides.
    ensures complete { (net : Network State) → TellsAll (L.file library.old)
        → Conforms (L.file library.old) (top_asked (string_bytes job.now.top)) (words_of job.now) net
        → IsAnswered (ComesFor net) (command (met_by L.file L.misses L.faults F.feeds D.channels
        library.old library.new feeds.old feeds.new drains.old drains.new) job.now) result }
    ensures incomplete { (misses : Counts) (names : List (List ℕ)) (refusal : Denial)
        → TellsAll (L.file library.old)
        → RefusesJob names_of_ports (L.file library.old) (top_asked (string_bytes job.now.top))
        (words_of job.now) misses names refusal → IsNoEnd result }
    ensures too_far { (net : Network State) → TellsAll (L.file library.old)
        → Conforms (L.file library.old) (top_asked (string_bytes job.now.top)) (words_of job.now) net
        → GrowTooFar net.links job.now.grow → IsNoEnd result }

    // What stays.
    ensures same_files { (other : List ℕ) → L.file library.new other ≡ L.file library.old other }
    ensures faults_stay { L.faults library.old ≤ L.faults library.new }
    ensures misses_stay { L.misses library.old ≤ L.misses library.new }
{
    one_library_network();
    one_network_conforms();
    conforming_jobs_are_not_refused();
    run_files(rt, alloc, job, library, feeds, drains, gate)
}

/// The same, without what a library that tells of each name decides.
fn run_files<R: Threads + Sync, L: Library, F: Feeds, D: Drains, G: Gate>(
    rt: &R,
    alloc: Global,
    job: &Job,
    library: &mut L,
    feeds: &mut F,
    drains: &mut D,
    gate: &G,
) -> Status
    requires within { IsWithin (job_text job.now) }
    requires feeds_closed { (n : ℕ) → (F.feeds feeds.old).is_open n ≡ false }
    requires channels_closed { (n : ℕ) → n ≢ 0 → (D.channels drains.old).is_open n ≡ false }
    requires report_open { (D.channels drains.old).is_open 0 ≡ true }
    ensures as_asked { IsAnswered (ComesAsAsked (FeedsOpened F.feeds F.past feeds.old feeds.new)
        (ChannelsOpened D.channels D.past drains.old drains.new) (G.arrived gate.now))
        (command (met_by L.file L.misses L.faults F.feeds D.channels
        library.old library.new feeds.old feeds.new drains.old drains.new) job.now) result }
    ensures same_files { (other : List ℕ) → L.file library.new other ≡ L.file library.old other }
    ensures faults_stay { L.faults library.old ≤ L.faults library.new }
    ensures misses_stay { L.misses library.old ≤ L.misses library.new }
{
    let mut names = Names::new(alloc);
    match build(alloc, library, job.top.as_str(), &mut names) {
        Ok(image) => {
            built_images_can_be_run();
            run_image(rt, alloc, &image, &names, job, feeds, drains, gate)
        }
        Err(fault) => report_unbuilt(status_of_build(fault), &names, job, drains),
    }
}
