//! The bytes of a recorded trace, pulled in pieces.

ghost use Rattle.std.specs.Prelude.{◌≡◌, ◌≤◌, ◌<◌, ◌++◌, ℕ, List, [], true, false, IfOk, OnOk, OnErr, IfSome, IfNone, vec_len};
ghost use Rattle.rvc_io.specs.Feeds.{PullsOnly, ReadFails};
ghost use Rattle.port_files.specs.Coming.{KeepsComing, NothingLeft};
ghost use Rattle.trace_replay.specs.Coming.{GivesNext, StartsWith};
ghost use Rattle.trace_replay.specs.declared.bytes.TheConstants.{PIECE_BYTES, TRACE_FEED};

use rvc_base::Memory;
use rvc_io::{Failed, Feeds};
use std::alloc::Global;
use std::marker::Model;

/// The feed from which the trace is pulled.
pub const TRACE_FEED: u32 = 0;

/// The feed of the first input link.
pub const FIRST_INPUT: u32 = 1;

/// How many bytes are pulled at a time, at most.
const PIECE_BYTES: usize = 65_536;

/// Reads the bytes of a trace one after another, in whatever pieces they are pulled.
///
/// Contracts see the bytes that were pulled and not given yet. All memory is taken by [`TraceBytes::new`].
#[derive(Drop)]
pub(crate) struct TraceBytes {
    bytes: Vec<u8>,
    start: usize,
    end: usize,
}

impl Model for TraceBytes {
    ghost use Rattle.std.specs.Prelude.{◌≡◌, ◌≤◌, ◌-◌, ℕ, List, take, drop, vec_len};
    ghost use Rattle.trace_replay.specs.declared.bytes.TheConstants.{PIECE_BYTES};

    ghost Value = { List ℕ };

    ghost view = { λ t. take (t.end - t.start) (drop t.start t.bytes.items) };

    ghost invariant = { λ t. (t.start ≤ t.end) × (t.end ≤ vec_len t.bytes)
        × (vec_len t.bytes ≡ PIECE_BYTES) };
}

impl TraceBytes {
    /// A reader of bytes of which none was pulled yet.
    ///
    /// # Errors
    ///
    /// `Memory` if memory runs out.
    pub(crate) fn new(alloc: Global) -> Result<TraceBytes, Memory>
        ensures { IfOk result (λ t. t ≡ []) }
    {
        let bytes = zeros(alloc, PIECE_BYTES)?;
        Ok(TraceBytes {
            bytes,
            start: 0,
            end: 0,
        })
    }

    /// The next byte of the trace, or none at its end.
    ///
    /// # Errors
    ///
    /// `Failed` if bytes couldn't be pulled: the failure was counted, and the bytes still to come are those that
    /// were to come before.
    pub(crate) fn next<F: Feeds>(&mut self, feeds: &mut F) -> Result<Option<u8>, Failed>
        requires open { (F.feeds feeds.old).is_open TRACE_FEED ≡ true }
        ensures byte { IfOk result (λ next. GivesNext F.feeds next self.old feeds.old self.new
            feeds.new) }
        ensures failed { OnErr result (ReadFails F.feeds feeds.old feeds.new) }
        ensures elsewhere { PullsOnly F.feeds feeds.old feeds.new TRACE_FEED }
    {
        if self.start == self.end {
            let Ok(()) = self.refill(feeds) else {
                return Err(Failed);
            };
        }
        Ok(self.pop())
    }

    /// Takes this text if the bytes that were pulled begin with it. Whether they do.
    pub(crate) fn skip(&mut self, text: &[u8]) -> bool
        ensures yes { result ≡ true → self.old ≡ text.now ++ self.new }
        ensures no { result ≡ false → self.new ≡ self.old }
    {
        if !self.bytes[self.start..self.end].starts_with(text) {
            return false;
        }
        self.start += text.len();
        true
    }

    /// Pulls a piece once none of the last one is left.
    fn refill<F: Feeds>(&mut self, feeds: &mut F) -> Result<(), Failed>
        requires open { (F.feeds feeds.old).is_open TRACE_FEED ≡ true }
        requires empty { self.old ≡ [] }
        ensures coming { OnOk result (KeepsComing F.feeds feeds.old feeds.new TRACE_FEED self.old
            self.new) }
        ensures at_end { OnOk result (self.new ≡ []
            → NothingLeft ((F.feeds feeds.new).left TRACE_FEED)) }
        ensures failed { OnErr result (ReadFails F.feeds feeds.old feeds.new) }
        ensures elsewhere { PullsOnly F.feeds feeds.old feeds.new TRACE_FEED }
    {
        let count = feeds.pull(TRACE_FEED, &mut self.bytes)?;
        self.start = 0;
        self.end = count;
        Ok(())
    }

    /// Takes the first byte of those that were pulled.
    fn pop(&mut self) -> Option<u8>
        ensures some { IfSome result (λ byte. StartsWith byte self.old self.new) }
        ensures none { IfNone result ((self.old ≡ []) × (self.new ≡ [])) }
    {
        if self.start == self.end {
            return None;
        }
        let byte = self.bytes[self.start];
        self.start += 1;
        Some(byte)
    }
}

/// So many bytes.
fn zeros(alloc: Global, count: usize) -> Result<Vec<u8>, Memory>
    ensures { IfOk result (λ bytes. vec_len bytes ≡ count) }
{
    Ok(vec![in alloc; 0; count]?)
}
