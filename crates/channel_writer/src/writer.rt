//! Bytes that are buffered and put in large pieces.

ghost use Rattle.std.specs.Prelude.{◌≡◌, ◌≤◌, ◌+◌, ◌++◌, ℕ, Bool, true, List, [], OnOk, OnErr, IfOk, length, vec_capacity, vec_len};
ghost use Rattle.rvc_io.specs.Channels.{Appends, WriteFails, WritesOnly};
ghost use Rattle.channel_writer.specs.Held.{AppendsFront, WritesOn};
ghost use Rattle.channel_writer.specs.declared.writer.TheConstants.{PIECE_BYTES};

use crate::whole::put_all;
use rvc_base::Memory;
use rvc_io::{Drains, Failed};
use std::alloc::Global;
use std::marker::Model;

/// How many bytes are put at a time.
pub const PIECE_BYTES: usize = 65_536;

/// Bytes for one channel that are buffered until there are enough of them.
///
/// Contracts see the bytes that are buffered. All memory is taken by [`ChannelWriter::new`].
#[derive(Drop)]
pub struct ChannelWriter {
    pending: Vec<u8>,
}

impl Model for ChannelWriter {
    ghost Value = { List ℕ };

    ghost view = { λ w. w.pending.items };

    ghost invariant = { λ w. (PIECE_BYTES ≤ vec_capacity w.pending)
        × (vec_len w.pending ≤ PIECE_BYTES) };
}

impl ChannelWriter {
    /// A writer that buffers nothing.
    ///
    /// # Errors
    ///
    /// `Memory` if memory runs out.
    pub fn new(alloc: Global) -> Result<ChannelWriter, Memory>
        ensures { IfOk result (λ w. w ≡ []) }
    {
        let pending = Vec::with_capacity(alloc, PIECE_BYTES)?;
        Ok(ChannelWriter { pending })
    }

    /// Writes a text behind what was written to `channel` so far.
    ///
    /// # Errors
    ///
    /// `Failed` if a put failed: the failure was counted (`failed`), and the channel got a prefix of what was buffered
    /// and of the text (`front`). What was buffered still is, also what the channel got of it, and the text isn't
    /// (`still_pending`).
    pub fn write<D: Drains>(
        &mut self,
        drains: &mut D,
        channel: u32,
        text: &[u8],
    ) -> Result<(), Failed>
        requires open { (D.channels drains.old).is_open channel ≡ true }
        requires short { length text.now ≤ PIECE_BYTES }
        ensures written { OnOk result (WritesOn channel (D.channels drains.old)
            (D.channels drains.new) self.old self.new text.now) }
        ensures front { OnErr result (AppendsFront channel (D.channels drains.old)
            (D.channels drains.new) (self.old ++ text.now)) }
        ensures still_pending { OnErr result (self.new ≡ self.old) }
        ensures failed { OnErr result (WriteFails D.channels drains.old drains.new) }
        ensures elsewhere { WritesOnly D.channels drains.old drains.new channel }
    {
        if text.len() > PIECE_BYTES - self.pending.len() {
            self.flush(drains, channel)?;
        }
        append(&mut self.pending, text);
        Ok(())
    }

    /// Puts everything that is buffered on `channel`.
    ///
    /// # Errors
    ///
    /// `Failed` if a put failed: the failure was counted (`failed`), and the channel got a prefix of what was buffered
    /// (`front`). What was buffered still is, also what the channel got of it (`still_pending`).
    pub fn flush<D: Drains>(&mut self, drains: &mut D, channel: u32) -> Result<(), Failed>
        requires { (D.channels drains.old).is_open channel ≡ true }
        ensures all { OnOk result (Appends channel (D.channels drains.old) (D.channels drains.new)
            self.old) }
        ensures nothing_left { OnOk result (self.new ≡ []) }
        ensures front { OnErr result (AppendsFront channel (D.channels drains.old)
            (D.channels drains.new) self.old) }
        ensures still_pending { OnErr result (self.new ≡ self.old) }
        ensures failed { OnErr result (WriteFails D.channels drains.old drains.new) }
        ensures elsewhere { WritesOnly D.channels drains.old drains.new channel }
    {
        put_all(drains, channel, self.pending.as_slice())?;
        self.pending.clear();
        Ok(())
    }
}

/// Appends a text for which there is room.
fn append(pending: &mut Vec<u8>, text: &[u8])
    requires { vec_len pending.old + length text.now ≤ vec_capacity pending.old }
    ensures items { pending.new.items ≡ pending.old.items ++ text.now }
    ensures capacity { vec_capacity pending.old ≤ vec_capacity pending.new }
{
    match pending.extend_from_slice(text) {
        Ok(()) => {}
        Err(_) => unreachable!(),
    }
}
