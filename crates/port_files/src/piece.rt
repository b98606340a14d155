//! The piece of a feed's bytes that was pulled last.

ghost use Rattle.std.specs.Prelude.{◌≡◌, ◌≤◌, ◌<◌, ◌+◌, ◌++◌, ℕ, Bool, true, List, [], IfOk, OnErr, length, take, drop, vec_len};
ghost use Rattle.rvc_io.specs.Feeds.{PullsOnly, ReadFails};
ghost use Rattle.port_files.specs.Coming.{KeepsComing, NothingLeft};
ghost use Rattle.port_files.specs.declared.piece.TheConstants.{PIECE_BYTES};

use rvc_base::Memory;
use rvc_io::{Failed, Feeds};
use std::alloc::Global;
use std::marker::Model;

/// How many bytes are pulled at a time, at most.
pub const PIECE_BYTES: usize = 65_536;

/// Bytes that were pulled, without those that were taken from their front.
///
/// Contracts see a list. All memory is taken by [`Piece::new`].
#[derive(Drop)]
pub(crate) struct Piece {
    bytes: Vec<u8>,
    start: usize,
    end: usize,
}

impl Model for Piece {
    ghost use Rattle.std.specs.Prelude.{◌≡◌, ◌≤◌, ◌-◌, ℕ, List, take, drop, vec_len};
    ghost use Rattle.port_files.specs.declared.piece.TheConstants.{PIECE_BYTES};

    ghost Value = { List ℕ };

    ghost view = { λ p. take (p.end - p.start) (drop p.start p.bytes.items) };

    ghost invariant = { λ p. (p.start ≤ p.end) × (p.end ≤ vec_len p.bytes)
        × (vec_len p.bytes ≡ PIECE_BYTES) };
}

impl Piece {
    /// No byte was pulled yet.
    pub(crate) fn new(alloc: Global) -> Result<Piece, Memory>
        ensures { IfOk result (λ p. p ≡ []) }
    {
        let bytes = zeros(alloc, PIECE_BYTES)?;
        Ok(Piece {
            bytes,
            start: 0,
            end: 0,
        })
    }

    /// How many bytes there are.
    pub(crate) fn len(&self) -> usize
        ensures { result ≡ length self.now }
    {
        self.end - self.start
    }

    /// The first `count` bytes.
    pub(crate) fn first(&self, count: usize) -> &[u8]
        requires { count ≤ length self.now }
        ensures { result.now ≡ take count self.now }
    {
        &self.bytes[self.start..self.start + count]
    }

    /// Takes `count` bytes from the front.
    pub(crate) fn skip(&mut self, count: usize)
        requires { count ≤ length self.old }
        ensures { self.new ≡ drop count self.old }
    {
        self.start += count;
    }

    /// Pulls once behind the bytes that are there, and says how many came. 0 is the end of input.
    pub(crate) fn fill<F: Feeds>(&mut self, feed: u32, feeds: &mut F) -> Result<usize, Failed>
        requires open { (F.feeds feeds.old).is_open feed ≡ true }
        requires room { length self.old < PIECE_BYTES }
        ensures grows { IfOk result (λ n. length self.new ≡ length self.old + n) }
        ensures coming { IfOk result (λ _. KeepsComing F.feeds feeds.old feeds.new feed self.old
            self.new) }
        ensures at_end { IfOk result (λ n. n ≡ 0 → NothingLeft ((F.feeds feeds.new).left feed)) }
        ensures failed { OnErr result (ReadFails F.feeds feeds.old feeds.new) }
        ensures failed_bytes { OnErr result (self.new ≡ self.old) }
        ensures failed_left { OnErr result ((F.feeds feeds.new).left feed
            ≡ (F.feeds feeds.old).left feed) }
        ensures elsewhere { PullsOnly F.feeds feeds.old feeds.new feed }
    {
        self.bytes.copy_within(self.start..self.end, 0);
        self.end -= self.start;
        self.start = 0;
        let count = pull_behind(&mut self.bytes, self.end, feed, feeds)?;
        self.end += count;
        Ok(count)
    }
}

/// Pulls once behind the first `kept` of the bytes, and says how many came.
fn pull_behind<F: Feeds>(
    bytes: &mut [u8],
    kept: usize,
    feed: u32,
    feeds: &mut F,
) -> Result<usize, Failed>
    requires open { (F.feeds feeds.old).is_open feed ≡ true }
    requires room { kept < length bytes.old }
    ensures fits { IfOk result (λ n. kept + n ≤ length bytes.old) }
    ensures kept { take kept bytes.new ≡ take kept bytes.old }
    ensures coming { IfOk result (λ n. KeepsComing F.feeds feeds.old feeds.new feed
        (take kept bytes.old) (take (kept + n) bytes.new)) }
    ensures at_end { IfOk result (λ n. n ≡ 0 → NothingLeft ((F.feeds feeds.new).left feed)) }
    ensures failed { OnErr result (ReadFails F.feeds feeds.old feeds.new) }
    ensures failed_left { OnErr result ((F.feeds feeds.new).left feed
        ≡ (F.feeds feeds.old).left feed) }
    ensures elsewhere { PullsOnly F.feeds feeds.old feeds.new feed }
{
    feeds.pull(feed, &mut bytes[kept..])
}

/// So many bytes.
fn zeros(alloc: Global, count: usize) -> Result<Vec<u8>, Memory>
    ensures { IfOk result (λ bytes. vec_len bytes ≡ count) }
{
    Ok(vec![in alloc; 0; count]?)
}
