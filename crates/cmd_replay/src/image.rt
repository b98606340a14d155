//! A trace is replayed over an image.

ghost use Rattle.std.specs.Prelude.{◌≡◌, ℕ, false, true};
ghost use Rattle.rvc_words.specs.Words.{IsWithin, job_text};
ghost use Rattle.cmd_run_network.specs.Names.{FeedsOpened};
ghost use Rattle.cmd_replay.specs.Steps.{ImageJudged, ImageReplayed, IsSourceImage};

use crate::outcome::NotReplayed;
use crate::replaying::replay_network;
use crate::reporting::report_came;
use crate::states::ActorStates;
use cal_files::Names;
use cmd_report::Status;
use net_cells::{cells_run_as_sources, make_cells};
use rvc_base::Memory;
use rvc_engine::Image;
use rvc_io::{Drains, Feeds};
use rvc_words::Job;
use std::alloc::Global;
use trace_replay::{ReplayFault, Replayed, no_trace_is_told_to_be_none};

/// Makes the cells of an image and replays the trace of a job over them.
fn replay_cells<F: Feeds>(
    alloc: Global,
    image: &Image,
    job: &Job,
    feeds: &mut F,
) -> Result<Replayed, NotReplayed>
    requires source { IsSourceImage image.now }
    requires within { IsWithin (job_text job.now) }
    requires feeds_closed { (n : ℕ) → (F.feeds feeds.old).is_open n ≡ false }
    ensures { ImageJudged image.now job.now (F.feeds feeds.old) (F.feeds feeds.new)
        (FeedsOpened F.feeds F.past feeds.old feeds.new) result }
{
    cells_run_as_sources();
    no_trace_is_told_to_be_none::<ActorStates>();
    let cells = match make_cells(
        alloc,
        image.codes.as_slice(),
        image.flat.links.as_slice(),
        job.burst,
        job.grow,
    ) {
        Ok(cells) => cells,
        Err(Memory) => return Err(NotReplayed::Fault(ReplayFault::Memory)),
    };
    replay_network(alloc, cells, &image.flat, job, feeds)
}

/// Replays the trace of a job over an image, and puts the report.
pub(crate) fn replay_image<F: Feeds, D: Drains>(
    alloc: Global,
    image: &Image,
    names: &Names,
    job: &Job,
    feeds: &mut F,
    drains: &mut D,
) -> Status
    requires source { IsSourceImage image.now }
    requires within { IsWithin (job_text job.now) }
    requires feeds_closed { (n : ℕ) → (F.feeds feeds.old).is_open n ≡ false }
    requires report_open { (D.channels drains.old).is_open 0 ≡ true }
    ensures { ImageReplayed image.now names.now job.now (F.feeds feeds.old) (F.feeds feeds.new)
        (D.channels drains.old) (D.channels drains.new)
        (FeedsOpened F.feeds F.past feeds.old feeds.new) result }
{
    let came = replay_cells(alloc, image, job, feeds);
    report_came(image, names, job, came, drains)
}
