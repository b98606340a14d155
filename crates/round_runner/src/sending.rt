//! Tokens on their way to the channel of an output.

ghost use Rattle.std.specs.Prelude.{◌≡◌, true, OnErr, IfOk, length, slice_get};
ghost use Rattle.rvc_base.specs.Storing.{IsSize};
ghost use Rattle.rvc_io.specs.Channels.{WriteFails, WritesOnly};
ghost use Rattle.net_state.specs.Moving.{IsFromCell};
ghost use Rattle.round_runner.specs.Sending.{FrontOn, SentOn, outgoing, stored};
ghost use Rattle.round_runner.specs.Writing.{Broke, Wrote};

use channel_writer::ChannelWriter;
use net_model::Firing;
use net_state::NetState;
use port_files::encode;
use rvc_base::{LinkId, MAX_TOKEN_BYTES, Num, Scalar};
use rvc_io::{Drains, Failed};

/// Writes what was sent on a link to an output and hasn't left, as a port of this type holds it, and says how many
/// tokens these are.
///
/// # Errors
///
/// `Failed` if a write failed (`failed`): the channel got a prefix of what was buffered and of these bytes (`front`).
pub fn send_along<A: Firing, D: Drains>(
    net: &NetState<A>,
    link: LinkId,
    kind: Scalar,
    channel: u32,
    writer: &mut ChannelWriter,
    drains: &mut D,
) -> Result<u32, Failed>
    requires from_cell { IsFromCell (slice_get net.now.links link.0) }
    requires size { IsSize kind }
    requires open { (D.channels drains.old).is_open channel ≡ true }
    ensures count { IfOk result (λ n. n ≡ length (outgoing A.cell net.now link.0)) }
    ensures sent { SentOn A.cell net.now link.0 kind D.channels channel drains.old drains.new
        writer.old writer.new result }
    ensures front { FrontOn A.cell net.now link.0 kind D.channels channel drains.old drains.new
        writer.old result }
    ensures failed { OnErr result (WriteFails D.channels drains.old drains.new) }
    ensures elsewhere { WritesOnly D.channels drains.old drains.new channel }
{
    let count = net.sent(link);
    for k in 0..count {
        let token = net.sent_at(link, k);
        write_token(token, kind, channel, writer, drains)?;
    }
    Ok(count)
}

/// Writes the bytes of one token.
fn write_token<D: Drains>(
    token: Num,
    kind: Scalar,
    channel: u32,
    writer: &mut ChannelWriter,
    drains: &mut D,
) -> Result<(), Failed>
    requires size { IsSize kind }
    requires open { (D.channels drains.old).is_open channel ≡ true }
    ensures written { Wrote D.channels drains.old drains.new channel writer.old writer.new
        (stored kind token) result }
    ensures front { Broke D.channels drains.old drains.new channel writer.old
        (stored kind token) result }
    ensures failed { OnErr result (WriteFails D.channels drains.old drains.new) }
    ensures elsewhere { WritesOnly D.channels drains.old drains.new channel }
{
    let mut bytes = [0u8; MAX_TOKEN_BYTES];
    let count = encode(kind, token, &mut bytes);
    writer.write(drains, channel, &bytes[..usize::from(count)])
}
