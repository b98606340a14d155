//! The feeds and channels of a job are opened, and what stands before the first event of the trace is written.

ghost use Rattle.std.specs.Prelude.{◌≡◌, ◌≢◌, ◌<◌, ◌≤◌, ℕ, false, length, string_bytes};
ghost use Rattle.cmd_run_network.specs.Names.{ChannelsOpened, FeedsOpened, OpensByName};
ghost use Rattle.cmd_run_network.specs.Network.{in_names, out_names, words_of};
ghost use Rattle.cmd_run_network.specs.Preparing.{Opens, Starts};

use crate::outcome::JobFault;
use channel_writer::put_all;
use cmd_ports::{TRACE_CHANNEL, open_channels, open_feeds};
use fnl_flatten::Flat;
use rvc_io::{Drains, Feeds};
use rvc_words::Job;

/// Opens the feeds of a job, in the order of links, and then its channels: the trace's, and those of outputs in their
/// order.
fn open_all<F: Feeds, D: Drains>(
    flat: &Flat,
    job: &Job,
    feeds: &mut F,
    drains: &mut D,
) -> Result<(), JobFault>
    requires feeds_closed { (n : ℕ) → 1 ≤ n → n ≤ length flat.now.links.items
        → (F.feeds feeds.old).is_open n ≡ false }
    requires channels_closed { (n : ℕ) → n ≢ 0 → (D.channels drains.old).is_open n ≡ false }
    requires few_links { length flat.now.links.items < 4294967295 }
    requires few_outs { length flat.now.outs.items < 4294967294 }
    ensures opens { Opens F.feeds D.channels flat.now (words_of job.now)
        (string_bytes job.now.trace) feeds.old feeds.new drains.old drains.new result }
    ensures by_name { OpensByName flat.now.links.items (in_names flat.now) (out_names flat.now)
        (words_of job.now) (string_bytes job.now.trace)
        (FeedsOpened F.feeds F.past feeds.old feeds.new)
        (ChannelsOpened D.channels D.past drains.old drains.new) result }
{
    let words = job.ports.as_slice();
    if let Err(feed) = open_feeds(words, flat.links.as_slice(), flat.ins.as_slice(), feeds) {
        return Err(JobFault::ReadFault { feed });
    }
    if let Err(channel) = open_channels(job.trace.as_str(), words, flat.outs.as_slice(), drains) {
        return Err(JobFault::WriteFault { channel });
    }
    Ok(())
}

/// Opens the feeds and channels of a job, and writes what stands in the trace before its first event.
pub(crate) fn start<F: Feeds, D: Drains>(
    flat: &Flat,
    job: &Job,
    head: &[u8],
    feeds: &mut F,
    drains: &mut D,
) -> Result<(), JobFault>
    requires feeds_closed { (n : ℕ) → 1 ≤ n → n ≤ length flat.now.links.items
        → (F.feeds feeds.old).is_open n ≡ false }
    requires channels_closed { (n : ℕ) → n ≢ 0 → (D.channels drains.old).is_open n ≡ false }
    requires few_links { length flat.now.links.items < 4294967295 }
    requires few_outs { length flat.now.outs.items < 4294967294 }
    ensures starts { Starts F.feeds D.channels flat.now (words_of job.now)
        (string_bytes job.now.trace) feeds.old feeds.new drains.old drains.new head.now result }
    ensures by_name { OpensByName flat.now.links.items (in_names flat.now) (out_names flat.now)
        (words_of job.now) (string_bytes job.now.trace)
        (FeedsOpened F.feeds F.past feeds.old feeds.new)
        (ChannelsOpened D.channels D.past drains.old drains.new) result }
{
    if let Err(fault) = open_all(flat, job, feeds, drains) {
        return Err(fault);
    }
    let Ok(()) = put_all(drains, TRACE_CHANNEL, head) else {
        return Err(JobFault::WriteFault {
            channel: TRACE_CHANNEL,
        });
    };
    Ok(())
}
