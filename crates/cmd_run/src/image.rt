//! A network that was compiled is run.

ghost use Rattle.std.specs.Prelude.{◌≡◌, ◌≢◌, ◌≤◌, ℕ, false, length, string_bytes, true};
ghost use Rattle.rvc_words.specs.Words.{IsWithin, job_text};
ghost use Rattle.cal_files.specs.Loading as loading;
ghost use Rattle.cal_files.specs.Views.{file_names};
ghost use Rattle.rvc_engine.specs.Built.{IsBuilt};
ghost use Rattle.network_check.specs.Top.{top_asked};
ghost use Rattle.cmd_network.specs.Answers.{IsAnswered};
ghost use Rattle.cmd_run_network.specs.Names.{ChannelsOpened, FeedsOpened};
ghost use Rattle.cmd_run.specs.Asked.{ComesAsAsked};
ghost use Rattle.cmd_run.specs.Ends.{Comes};
ghost use Rattle.cmd_run.specs.Steps.{CellsAsked, CellsRan, ImageRan, IsSourceImage};

use crate::reporting::report_came;
use cal_files::Names;
use cmd_report::Status;
use cmd_run_network::{JobFault, Outcome, run_network};
use net_cells::{cells_run_as_sources, make_cells};
use rvc_base::Memory;
use rvc_engine::Image;
use rvc_io::{Drains, Feeds, Gate};
use rvc_words::Job;
use std::alloc::Global;
use std::thread::Threads;

/// Makes the cells of an image and runs them.
fn run_cells<R: Threads + Sync, F: Feeds, D: Drains, G: Gate>(
    rt: &R,
    alloc: Global,
    image: &Image,
    job: &Job,
    feeds: &mut F,
    drains: &mut D,
    gate: &G,
) -> Result<Outcome, JobFault>
    requires source { IsSourceImage image.now }
    requires within { IsWithin (job_text job.now) }
    requires feeds_closed { (n : ℕ) → 1 ≤ n → n ≤ length image.now.flat.links.items
        → (F.feeds feeds.old).is_open n ≡ false }
    requires channels_closed { (n : ℕ) → n ≢ 0 → (D.channels drains.old).is_open n ≡ false }
    ensures ran { CellsRan image.now job.now (F.feeds feeds.old) (F.feeds feeds.new)
        (D.channels drains.old) (D.channels drains.new) result }
    ensures asked { CellsAsked image.now job.now (FeedsOpened F.feeds F.past feeds.old feeds.new)
        (ChannelsOpened D.channels D.past drains.old drains.new) (G.arrived gate.now) result }
{
    cells_run_as_sources();
    let cells = match make_cells(
        alloc,
        image.codes.as_slice(),
        image.flat.links.as_slice(),
        job.burst,
        job.grow,
    ) {
        Ok(cells) => cells,
        Err(Memory) => return Err(JobFault::Memory),
    };
    run_network(rt, alloc, cells, &image.flat, job, feeds, drains, gate)
}

/// Runs an image, and puts the report.
fn run_and_report<R: Threads + Sync, F: Feeds, D: Drains, G: Gate>(
    rt: &R,
    alloc: Global,
    image: &Image,
    names: &Names,
    job: &Job,
    feeds: &mut F,
    drains: &mut D,
    gate: &G,
) -> Status
    requires source { IsSourceImage image.now }
    requires within { IsWithin (job_text job.now) }
    requires feeds_closed { (n : ℕ) → 1 ≤ n → n ≤ length image.now.flat.links.items
        → (F.feeds feeds.old).is_open n ≡ false }
    requires channels_closed { (n : ℕ) → n ≢ 0 → (D.channels drains.old).is_open n ≡ false }
    requires report_open { (D.channels drains.old).is_open 0 ≡ true }
    ensures { ImageRan image.now names.now job.now (F.feeds feeds.old) (F.feeds feeds.new)
        (D.channels drains.old) (D.channels drains.new)
        (FeedsOpened F.feeds F.past feeds.old feeds.new)
        (ChannelsOpened D.channels D.past drains.old drains.new) (G.arrived gate.now) result }
{
    let came = run_cells(rt, alloc, image, job, feeds, drains, gate);
    report_came(image, names, job, came, drains)
}

/// Runs the network of an image as a job asks, and puts the report on channel 0. `names` are those of the files of which the
/// image was built.
///
/// The port words are matched with the network's ports, and it is tested how far the links may grow. All memory is taken
/// before anything is opened. Then the feeds of inputs that have a file are opened, in the order of links, and the channels.
/// The rounds go to an end, and the report is written last. `rt` is for the threads of more workers than one, and `gate` is
/// told when a worker starts.
///
/// - `answered`: whatever library the image was built of for the job's top, the answer is that of a command that runs its
///   network (`Comes`). Nothing else of the library matters.
/// - `as_asked`: besides, the feeds and channels that were opened are those of the network's ports that have a file, each under
///   the name of its file, and the workers that the job asks for have arrived in each round (`ComesAsAsked`).
///
/// # Errors
///
/// Those of [`run_job`](crate::run_job) that aren't of files.
pub fn run_image<R: Threads + Sync, F: Feeds, D: Drains, G: Gate>(
    rt: &R,
    alloc: Global,
    image: &Image,
    names: &Names,
    job: &Job,
    feeds: &mut F,
    drains: &mut D,
    gate: &G,
) -> Status
    requires source { IsSourceImage image.now }
    requires within { IsWithin (job_text job.now) }
    requires feeds_closed { (n : ℕ) → 1 ≤ n → n ≤ length image.now.flat.links.items
        → (F.feeds feeds.old).is_open n ≡ false }
    requires channels_closed { (n : ℕ) → n ≢ 0 → (D.channels drains.old).is_open n ≡ false }
    requires report_open { (D.channels drains.old).is_open 0 ≡ true }
    ensures answered { (library : loading.Library) (misses faults : loading.Counts)
        → IsBuilt library (top_asked (string_bytes job.now.top)) (file_names names.now) image.now
        → IsAnswered Comes (record {
          job = job.now;
          library = library;
          misses = misses;
          faults = faults;
          feeds = F.feeds feeds.old;
          feeds_after = F.feeds feeds.new;
          channels = D.channels drains.old;
          channels_after = D.channels drains.new;
        }) result }
    ensures as_asked { (library : loading.Library) (misses faults : loading.Counts)
        → IsBuilt library (top_asked (string_bytes job.now.top)) (file_names names.now) image.now
        → IsAnswered (ComesAsAsked (FeedsOpened F.feeds F.past feeds.old feeds.new)
        (ChannelsOpened D.channels D.past drains.old drains.new) (G.arrived gate.now)) (record {
          job = job.now;
          library = library;
          misses = misses;
          faults = faults;
          feeds = F.feeds feeds.old;
          feeds_after = F.feeds feeds.new;
          channels = D.channels drains.old;
          channels_after = D.channels drains.new;
        }) result }
{
    cells_run_as_sources();
    run_and_report(rt, alloc, image, names, job, feeds, drains, gate)
}
