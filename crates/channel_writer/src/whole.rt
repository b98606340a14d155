//! All bytes of a piece, however few the channel takes at a time.

ghost use Rattle.std.specs.Prelude.{◌≡◌, true, OnOk, OnErr};
ghost use Rattle.rvc_io.specs.Channels.{Appends, WriteFails, WritesOnly};
ghost use Rattle.channel_writer.specs.Held.{AppendsFront};

use rvc_io::{Drains, Failed};

/// Puts `piece` whole behind what `channel` holds.
///
/// # Errors
///
/// `Failed` if a put failed: the failure was counted (`failed`), and the channel got a prefix of the piece (`front`).
pub fn put_all<D: Drains>(drains: &mut D, channel: u32, piece: &[u8]) -> Result<(), Failed>
    requires { (D.channels drains.old).is_open channel ≡ true }
    ensures all { OnOk result (Appends channel (D.channels drains.old) (D.channels drains.new)
        piece.now) }
    ensures front { OnErr result (AppendsFront channel (D.channels drains.old)
        (D.channels drains.new) piece.now) }
    ensures failed { OnErr result (WriteFails D.channels drains.old drains.new) }
    ensures elsewhere { WritesOnly D.channels drains.old drains.new channel }
{
    let mut at = 0usize;
    while at < piece.len() {
        let n = drains.put(channel, &piece[at..])?;
        at += n;
    }
    Ok(())
}
