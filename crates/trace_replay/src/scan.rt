//! Reads a trace line by line.

ghost use Rattle.std.specs.Prelude.{◌≡◌, ◌<◌, ◌≤◌, ◌++◌, [], true, false, IfOk, IfNone, IfSome, OnErr, Some, length, slice_get};
ghost use Rattle.rvc_io.specs.Feeds.{PullsOnly, ReadFails};
ghost use Rattle.port_files.specs.Coming.{coming_on};
ghost use Rattle.trace_text.specs.Text.{line_feed};
ghost use Rattle.trace_replay.specs.Again.{ReadsAgain};
ghost use Rattle.trace_replay.specs.Judging.{max_trace_bytes};
ghost use Rattle.trace_replay.specs.Reading.{TellsRest};
ghost use Rattle.trace_replay.specs.Scanning.{IsWithin, ScansLine, ScansPast, TellsFront, TellsWhole};
ghost use Rattle.trace_replay.specs.declared.bytes.TheConstants.{TRACE_FEED};

use crate::bytes::TraceBytes;
use crate::last_firing::LastFiring;
use rvc_base::Memory;
use rvc_io::{Failed, Feeds};
use std::alloc::Global;
use trace_text::{Line, LineReader, Step2};

/// The most bytes that a trace has: 64 TiB.
pub const MAX_TRACE_BYTES: u64 = 70_368_744_177_664;

/// What was read of a trace.
#[derive(Clone, Copy, Debug)]
pub(crate) enum Scanned {
    /// A whole line, and whether its text is the one that was expected.
    Line(Line, bool),
    /// Bytes that begin no line.
    Bad,
    /// Bytes that begin a line, at the end of the trace.
    Cut,
    /// Bytes that begin a line, up to the greatest length of a trace and past it.
    TooLong,
}

/// Reads the lines of a trace. Of a line only what the reader of lines keeps is held.
#[derive(Drop)]
pub(crate) struct TraceLines {
    bytes: TraceBytes,
    /// How many bytes of the trace were read.
    passed: u64,
    last: LastFiring,
}

impl TraceLines {
    /// A reader of a trace of which nothing was read yet.
    ///
    /// # Errors
    ///
    /// `Memory` if memory runs out.
    pub(crate) fn new(alloc: Global) -> Result<TraceLines, Memory>
        ensures bytes { IfOk result (λ t. t.bytes ≡ []) }
        ensures passed { IfOk result (λ t. t.passed ≡ 0) }
    {
        let bytes = TraceBytes::new(alloc)?;
        Ok(TraceLines {
            bytes,
            passed: 0,
            last: LastFiring::new(0, 0),
        })
    }

    /// Reads up to the end of a line, or as far as bytes begin one, and says whether its text is `front`, `name` and a
    /// line feed.
    ///
    /// # Errors
    ///
    /// `Failed` if bytes couldn't be pulled.
    pub(crate) fn scan<F: Feeds>(
        &mut self,
        front: &[u8],
        name: &[u8],
        feeds: &mut F,
    ) -> Result<Scanned, Failed>
        requires open { (F.feeds feeds.old).is_open TRACE_FEED ≡ true }
        requires within { self.old.passed ≤ max_trace_bytes }
        ensures scans { IfOk result (ScansLine F.feeds front.now name.now self.old feeds.old
            self.new feeds.new) }
        ensures within { IfOk result (λ scanned. IsWithin self.new.passed scanned) }
        ensures failed { OnErr result (ReadFails F.feeds feeds.old feeds.new) }
        ensures elsewhere { PullsOnly F.feeds feeds.old feeds.new TRACE_FEED }
    {
        if front.is_empty() && name.is_empty() {
            if let Some(line) = self.scan_again() {
                return Ok(Scanned::Line(line, false));
            }
        }
        let scanned = self.scan_anew(front, name, feeds)?;
        if let Scanned::Line(Line::Fire { inst, action }, _) = scanned {
            self.last = LastFiring::new(inst, action);
        }
        Ok(scanned)
    }

    /// Reads the last firing's line once more, if its text is what comes next among the bytes that were pulled.
    fn scan_again(&mut self) -> Option<Line>
        requires within { self.old.passed ≤ max_trace_bytes }
        ensures some { IfSome result (λ line. ReadsAgain line self.old self.new) }
        ensures none { IfNone result (self.new ≡ self.old) }
    {
        let text = self.last.text();
        if text.len() as u64 > MAX_TRACE_BYTES - self.passed || !self.bytes.skip(text) {
            return None;
        }
        self.passed += text.len() as u64;
        Some(self.last.line())
    }

    /// The same, byte by byte.
    fn scan_anew<F: Feeds>(
        &mut self,
        front: &[u8],
        name: &[u8],
        feeds: &mut F,
    ) -> Result<Scanned, Failed>
        requires open { (F.feeds feeds.old).is_open TRACE_FEED ≡ true }
        requires within { self.old.passed ≤ max_trace_bytes }
        ensures scans { IfOk result (ScansLine F.feeds front.now name.now self.old feeds.old
            self.new feeds.new) }
        ensures within { IfOk result (λ scanned. IsWithin self.new.passed scanned) }
        ensures failed { OnErr result (ReadFails F.feeds feeds.old feeds.new) }
        ensures elsewhere { PullsOnly F.feeds feeds.old feeds.new TRACE_FEED }
    {
        let begin = self.passed;
        let mut reader = LineReader::new();
        let mut same = true;
        'bytes: while self.passed < MAX_TRACE_BYTES {
            let Ok(next) = self.bytes.next(feeds) else {
                return Err(Failed);
            };
            let Some(byte) = next else {
                return Ok(Scanned::Cut);
            };
            same = still_expected(same, front, name, self.passed - begin, byte);
            self.passed += 1;
            match reader.next(byte) {
                Step2::More => {}
                Step2::Line(line) => {
                    let whole = is_whole(same, front, name, self.passed - begin);
                    return Ok(Scanned::Line(line, whole));
                }
                Step2::Bad => return Ok(Scanned::Bad),
            }
        }
        self.scan_past(feeds)
    }

    /// Whether a byte follows.
    ///
    /// # Errors
    ///
    /// `Failed` if bytes couldn't be pulled.
    pub(crate) fn goes_on<F: Feeds>(&mut self, feeds: &mut F) -> Result<bool, Failed>
        requires open { (F.feeds feeds.old).is_open TRACE_FEED ≡ true }
        ensures rest { IfOk result (λ so. TellsRest so
            (coming_on self.old.bytes (F.feeds feeds.old) TRACE_FEED)) }
        ensures failed { OnErr result (ReadFails F.feeds feeds.old feeds.new) }
        ensures elsewhere { PullsOnly F.feeds feeds.old feeds.new TRACE_FEED }
    {
        let Ok(next) = self.bytes.next(feeds) else {
            return Err(Failed);
        };
        Ok(next.is_some())
    }

    /// Whether so many bytes were read as a trace may have at most.
    pub(crate) fn is_full(&self) -> bool
        ensures yes { result ≡ true → max_trace_bytes ≤ self.now.passed }
        ensures no { result ≡ false → self.now.passed < max_trace_bytes }
    {
        self.passed >= MAX_TRACE_BYTES
    }

    /// Tells whether the trace goes on at its greatest length.
    fn scan_past<F: Feeds>(&mut self, feeds: &mut F) -> Result<Scanned, Failed>
        requires open { (F.feeds feeds.old).is_open TRACE_FEED ≡ true }
        requires full { self.old.passed ≡ max_trace_bytes }
        ensures past { IfOk result (ScansPast F.feeds self.old feeds.old self.new feeds.new) }
        ensures failed { OnErr result (ReadFails F.feeds feeds.old feeds.new) }
        ensures elsewhere { PullsOnly F.feeds feeds.old feeds.new TRACE_FEED }
    {
        let Ok(next) = self.bytes.next(feeds) else {
            return Err(Failed);
        };
        if next.is_none() {
            return Ok(Scanned::Cut);
        }
        self.passed += 1;
        Ok(Scanned::TooLong)
    }
}

/// Whether a text that was expected up to `at` still is with a byte more.
fn still_expected(same: bool, front: &[u8], name: &[u8], at: u64, byte: u8) -> bool
    ensures { TellsFront front.now name.now same at byte result }
{
    same && is_expected(front, name, at, byte)
}

/// Whether a text of so many bytes, which was expected so far, is all that was expected.
fn is_whole(same: bool, front: &[u8], name: &[u8], count: u64) -> bool
    ensures { TellsWhole front.now name.now same count result }
{
    same && is_long(front, name, count)
}

/// Whether this byte stands at a place of a text, which is two parts and a line feed.
fn is_expected(front: &[u8], name: &[u8], at: u64, byte: u8) -> bool
    ensures yes { result ≡ true → slice_get (front.now ++ name.now ++ line_feed) at ≡ Some byte }
    ensures no { slice_get (front.now ++ name.now ++ line_feed) at ≡ Some byte → result ≡ true }
{
    let fronts = front.len() as u64;
    if at < fronts {
        return front[at as usize] == byte;
    }
    let behind = at - fronts;
    let names = name.len() as u64;
    if behind < names {
        return name[behind as usize] == byte;
    }
    behind == names && byte == b'\n'
}

/// Whether so many bytes are at least as many as such a text has.
fn is_long(front: &[u8], name: &[u8], count: u64) -> bool
    ensures yes { result ≡ true → length (front.now ++ name.now ++ line_feed) ≤ count }
    ensures no { length (front.now ++ name.now ++ line_feed) ≤ count → result ≡ true }
{
    let fronts = front.len() as u64;
    count >= fronts && count - fronts > name.len() as u64
}
