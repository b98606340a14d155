//! The verb.

ghost use Rattle.std.specs.Prelude.{◌≡◌, ◌≢◌, ℕ, IsSome, Some, false, true, map, string_bytes};
ghost use Rattle.rvc_io.specs.Feeds.{Inputs};
ghost use Rattle.rvc_words.specs.Words.{IsWithin, job_text, port_text};
ghost use Rattle.cal_files.specs.Loading.{Counts, Library};
ghost use Rattle.cal_model.specs.Selection.{State};
ghost use Rattle.net_model.specs.Network.{Network};
ghost use Rattle.cmd_network.specs.Answers.{IsAnswered};
ghost use Rattle.cmd_run_network.specs.Names.{ChannelsOpened};
ghost use Rattle.cmd_gen.specs.Asked.{ComesAsAsked};
ghost use Rattle.cmd_gen.specs.Ends.{Comes, ComesFor};
ghost use Rattle.cmd_gen.specs.Jobs.{GeneratedConform, instances_of};
ghost use Rattle.cmd_gen.specs.Making.{IsMadeFor};
ghost use Rattle.cmd_gen.specs.Steps.{command_over};

use crate::built::run_built;
use crate::making::{Generated, generate};
use cal_files::Names;
use cmd_network::{
    conforming_jobs_are_not_refused, one_network_conforms, report_unbuilt, status_of_build,
};
use cmd_report::Status;
use cmd_run::built_images_can_be_run;
use fnl_source::one_library_network;
use rvc_base::Memory;
use rvc_engine::build;
use rvc_io::{Drains, Gate};
use rvc_words::Job;
use std::alloc::Global;
use std::thread::Threads;

/// Generates a network of as many instances as the job's top says, and its input, runs it as the job asks, and puts the
/// report on channel 0.
///
/// The port words may name outputs of the network alone. All else is as [`run_job`](cmd_run::run_job) does it: the network is
/// compiled and the words are matched, and it is tested how far the links may grow. All memory is taken before anything is
/// opened. Then the channels are opened: 1 for the trace, and 2 + k for output k if a word names a file for it. The rounds go
/// to an end, and the report is written last. No file is read and no feed is opened but those that are generated, in memory.
///
/// - `answered`: what the status says, whatever library and feeds there are. If it is `Quiet`, `Trapped`, `Stalled` or
///   `Budget`, a run of the network was made over the generated input, and it left what `run` leaves of the generated files
///   and feeds (`Runs`).
/// - `as_asked`: besides, the channels that were opened are the trace's and those of outputs that have a file, each under the
///   name that its word gives it, and the workers that the job asks for have arrived in each round (`ComesAsAsked`).
/// - `complete`: if the generated files conform to a network together with the port words, then it is this network that is
///   run: the job isn't refused, but for links that may grow too far.
///
/// # Errors
///
/// Each has its case in `answered`, with what it leaves. It never ends by a read fault.
///
/// - `Refused`: the first port word that names no output, or one that a word before it names; or Z12 at the command line, for
///   links that may grow too far. `OutOfMemory`: an allocation was refused. With these nothing is opened, and no channel is
///   written but that of the report.
/// - `WriteFault`, as of [`run_job`](cmd_run::run_job).
pub fn gen_job<R: Threads + Sync, D: Drains, G: Gate>(
    rt: &R,
    alloc: Global,
    job: &Job,
    drains: &mut D,
    gate: &G,
) -> Status
    requires within { IsWithin (job_text job.now) }
    requires number { IsSome (instances_of (string_bytes job.now.top)) }
    requires channels_closed { (n : ℕ) → n ≢ 0 → (D.channels drains.old).is_open n ≡ false }
    requires report_open { (D.channels drains.old).is_open 0 ≡ true }
    ensures answered { (library : Library) (misses faults : Counts) (feeds : Inputs)
        → IsAnswered Comes (command_over job.now library misses faults feeds feeds
        (D.channels drains.old) (D.channels drains.new)) result }
    ensures as_asked { (library : Library) (misses faults : Counts) (feeds : Inputs)
        → IsAnswered (ComesAsAsked (ChannelsOpened D.channels D.past drains.old drains.new)
        (G.arrived gate.now)) (command_over job.now library misses faults feeds feeds
        (D.channels drains.old) (D.channels drains.new)) result }
    ensures complete { (library : Library) (misses faults : Counts) (feeds : Inputs) (instances : ℕ)
        (net : Network State) → instances_of (string_bytes job.now.top) ≡ Some instances
        → GeneratedConform instances (map port_text job.now.ports.items) net
        → IsAnswered (ComesFor net) (command_over job.now library misses faults feeds feeds
        (D.channels drains.old) (D.channels drains.new)) result }
{
    one_library_network();
    one_network_conforms();
    conforming_jobs_are_not_refused();
    run_for(rt, alloc, job, drains, gate)
}

/// The same, without what the generated files decide.
fn run_for<R: Threads + Sync, D: Drains, G: Gate>(
    rt: &R,
    alloc: Global,
    job: &Job,
    drains: &mut D,
    gate: &G,
) -> Status
    requires within { IsWithin (job_text job.now) }
    requires number { IsSome (instances_of (string_bytes job.now.top)) }
    requires channels_closed { (n : ℕ) → n ≢ 0 → (D.channels drains.old).is_open n ≡ false }
    requires report_open { (D.channels drains.old).is_open 0 ≡ true }
    ensures { (library : Library) (misses faults : Counts) (feeds : Inputs)
        → IsAnswered (ComesAsAsked (ChannelsOpened D.channels D.past drains.old drains.new)
        (G.arrived gate.now)) (command_over job.now library misses faults feeds feeds
        (D.channels drains.old) (D.channels drains.new)) result }
{
    match generate(alloc, job) {
        Ok(made) => run_made(rt, alloc, job, made, drains, gate),
        Err(Memory) => report_unbuilt(Status::OutOfMemory, &Names::new(alloc), job, drains),
    }
}

/// Compiles what was made for a job, and runs it.
fn run_made<R: Threads + Sync, D: Drains, G: Gate>(
    rt: &R,
    alloc: Global,
    job: &Job,
    made: Generated,
    drains: &mut D,
    gate: &G,
) -> Status
    requires within { IsWithin (job_text job.now) }
    requires made { IsMadeFor job.now made.job made.library made.instances }
    requires channels_closed { (n : ℕ) → n ≢ 0 → (D.channels drains.old).is_open n ≡ false }
    requires report_open { (D.channels drains.old).is_open 0 ≡ true }
    ensures { (library : Library) (misses faults : Counts) (feeds : Inputs)
        → IsAnswered (ComesAsAsked (ChannelsOpened D.channels D.past drains.old drains.new)
        (G.arrived gate.now)) (command_over job.now library misses faults feeds feeds
        (D.channels drains.old) (D.channels drains.new)) result }
{
    let Generated {
        job: run,
        mut library,
        instances,
    } = made;
    let mut names = Names::new(alloc);
    one_library_network();
    match build(alloc, &mut library, run.top.as_str(), &mut names) {
        Ok(image) => {
            built_images_can_be_run();
            let words = job.ports.as_slice();
            run_built(
                rt, alloc, &image, &names, words, &run, instances, drains, gate,
            )
        }
        Err(fault) => report_unbuilt(status_of_build(fault), &names, &run, drains),
    }
}
