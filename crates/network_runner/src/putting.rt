//! What is buffered for outputs is put.

ghost use Rattle.std.specs.Prelude.{◌≡◌, ◌≤◌, true, false, IfErr, OnErr, OnOk, length};
ghost use Rattle.rvc_io.specs.Channels.{Appends, WriteFails, WritesOnly};
ghost use Rattle.channel_writer.specs.Held.{AppendsFront};
ghost use Rattle.network_runner.specs.Putting.{PutsOutlets, PutsOutletFronts};
ghost use Rattle.network_runner.specs.Sending.{IsChannelOf, OutletsOpen, SendsOnly, max_outlets};

use crate::sending::{Outlet, WriteFault};
use channel_writer::ChannelWriter;
use round_runner::FIRST_OUTPUT;
use rvc_io::{Drains, Failed};

/// Puts what is buffered for each output that has a channel.
///
/// # Errors
///
/// `WriteFault` if a write failed (`failed`), on the channel of an output that has one (`channel`): each channel got a
/// prefix of what was buffered for it (`fronts`).
pub fn flush_all<D: Drains>(
    outlets: &[Outlet],
    writers: &mut [ChannelWriter],
    drains: &mut D,
) -> Result<(), WriteFault>
    requires few { length outlets.now ≤ max_outlets }
    requires open { OutletsOpen outlets.now (D.channels drains.old) }
    requires as_many { length writers.old ≡ length outlets.now }
    ensures puts { OnOk result (PutsOutlets outlets.now (D.channels drains.old)
        (D.channels drains.new) writers.old) }
    ensures fronts { OnErr result (PutsOutletFronts outlets.now (D.channels drains.old)
        (D.channels drains.new) writers.old) }
    ensures failed { OnErr result (WriteFails D.channels drains.old drains.new) }
    ensures channel { IfErr result (λ fault. IsChannelOf outlets.now fault.channel) }
    ensures only { SendsOnly outlets.now (D.channels drains.old) (D.channels drains.new) }
    ensures still_as_many { length writers.new ≡ length writers.old }
{
    for p in 0..outlets.len() {
        let channel = FIRST_OUTPUT + p as u32;
        let Ok(()) = flush_one(outlets[p].is_open, channel, &mut writers[p], drains) else {
            return Err(WriteFault { channel });
        };
    }
    Ok(())
}

/// Puts what is buffered for a channel, if it is open.
fn flush_one<D: Drains>(
    is_open: bool,
    channel: u32,
    writer: &mut ChannelWriter,
    drains: &mut D,
) -> Result<(), Failed>
    requires open { is_open ≡ true → (D.channels drains.old).is_open channel ≡ true }
    ensures puts { OnOk result (is_open ≡ true → Appends channel (D.channels drains.old)
        (D.channels drains.new) writer.old) }
    ensures front { OnErr result (AppendsFront channel (D.channels drains.old)
        (D.channels drains.new) writer.old) }
    ensures failed { OnErr result (WriteFails D.channels drains.old drains.new) }
    ensures open_one { OnErr result (is_open ≡ true) }
    ensures elsewhere { WritesOnly D.channels drains.old drains.new channel }
    ensures closed { is_open ≡ false → D.channels drains.new ≡ D.channels drains.old }
{
    if !is_open {
        return Ok(());
    }
    writer.flush(drains, channel)
}
