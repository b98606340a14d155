//! The compiled network is run over the generated input.

ghost use Rattle.std.specs.Prelude.{◌≡◌, ◌≢◌, ◌≤◌, ℕ, false, length, map, true};
ghost use Rattle.rvc_words.specs.Words.{IsWithin, job_text, port_text};
ghost use Rattle.cmd_run_network.specs.Names.{ChannelsOpened};
ghost use Rattle.cmd_run_network.specs.Network.{out_names};
ghost use Rattle.cmd_ports.specs.Matching.{AreMatched};
ghost use Rattle.cmd_run.specs.Steps.{IsSourceImage};
ghost use Rattle.cmd_gen.specs.Steps.{CameOf};

use cal_files::Names;
use cmd_gen_network::generated_feeds;
use cmd_network::report_unbuilt;
use cmd_ports::match_words;
use cmd_report::Status;
use cmd_run::run_image;
use rvc_base::Memory;
use rvc_engine::Image;
use rvc_io::{Drains, Gate};
use rvc_words::{Job, PortWord};
use std::alloc::Global;
use std::thread::Threads;

/// The most outputs, and the most links, of a network. There is no memory for so many.
const MAX_LENGTH: usize = 2_147_483_647;

/// Matches the words of the user with the outputs of the network, and runs it over its input. The job that is run has these
/// words and, behind them, that of the input.
pub(crate) fn run_built<R: Threads + Sync, D: Drains, G: Gate>(
    rt: &R,
    alloc: Global,
    image: &Image,
    names: &Names,
    words: &[PortWord],
    job: &Job,
    instances: u32,
    drains: &mut D,
    gate: &G,
) -> Status
    requires source { IsSourceImage image.now }
    requires within { IsWithin (job_text job.now) }
    requires channels_closed { (n : ℕ) → n ≢ 0 → (D.channels drains.old).is_open n ≡ false }
    requires report_open { (D.channels drains.old).is_open 0 ≡ true }
    ensures { CameOf image.now names.now (map port_text words.now) job.now instances
        (D.channels drains.old) (D.channels drains.new)
        (ChannelsOpened D.channels D.past drains.old drains.new) (G.arrived gate.now) result }
{
    if image.flat.outs.len() > MAX_LENGTH || image.flat.links.len() > MAX_LENGTH {
        return report_unbuilt(Status::OutOfMemory, names, job, drains);
    }
    if let Err(refusal) = match_words(words, &[], image.flat.outs.as_slice()) {
        return report_unbuilt(Status::Refused(refusal), names, job, drains);
    }
    run_over_input(rt, alloc, image, names, words, job, instances, drains, gate)
}

/// Runs the network over its input. The words of the user are matched.
fn run_over_input<R: Threads + Sync, D: Drains, G: Gate>(
    rt: &R,
    alloc: Global,
    image: &Image,
    names: &Names,
    words: &[PortWord],
    job: &Job,
    instances: u32,
    drains: &mut D,
    gate: &G,
) -> Status
    requires source { IsSourceImage image.now }
    requires within { IsWithin (job_text job.now) }
    requires few { length image.now.flat.links.items ≤ 2147483647 }
    requires matched { AreMatched (out_names image.now.flat) (map port_text words.now) }
    requires channels_closed { (n : ℕ) → n ≢ 0 → (D.channels drains.old).is_open n ≡ false }
    requires report_open { (D.channels drains.old).is_open 0 ≡ true }
    ensures { CameOf image.now names.now (map port_text words.now) job.now instances
        (D.channels drains.old) (D.channels drains.new)
        (ChannelsOpened D.channels D.past drains.old drains.new) (G.arrived gate.now) result }
{
    let count = image.flat.links.len() as u32 + 1;
    match generated_feeds(alloc, instances, count) {
        Ok(mut feeds) => run_image(rt, alloc, image, names, job, &mut feeds, drains, gate),
        Err(Memory) => report_unbuilt(Status::OutOfMemory, names, job, drains),
    }
}
