//! The lines of a trace, with their numbers.

ghost use Rattle.std.specs.Prelude.{◌≡◌, ◌+◌, [], true, IfOk, IfErr, OnOk};
ghost use Rattle.rvc_io.specs.Feeds.{PullsOnly, ReadFails};
ghost use Rattle.trace_replay.specs.Head.{JudgesEnd, PassesEnd};
ghost use Rattle.trace_replay.specs.Judging.{is_of_table as of_table};
ghost use Rattle.trace_replay.specs.declared.scan.Scanned.TheVariants as scanned;
ghost use Rattle.trace_replay.specs.declared.why.ReplayFault.TheVariants as fault;
ghost use Rattle.trace_replay.specs.Reading.{IsCounted, IsStop, OnReadFault, ReadsLine, StopsAtLine, NamesTrace};
ghost use Rattle.trace_replay.specs.declared.bytes.TheConstants.{TRACE_FEED};

use crate::bytes::TRACE_FEED;
use crate::scan::{Scanned, TraceLines};
use crate::why::{ReplayFault, Why};
use net_model::Firing;
use rvc_base::Memory;
use rvc_io::Feeds;
use std::alloc::Global;
use trace_text::Line;

/// A line of a trace, and whether its text is the one that was expected.
#[derive(Clone, Copy, Debug)]
pub(crate) struct Read {
    pub line: Line,
    pub same: bool,
}

/// A trace that is read line by line.
#[derive(Drop)]
pub(crate) struct Trace {
    lines: TraceLines,
    /// How many lines were read.
    count: u64,
    /// Up to which capacity links grow at a stall; 0 if none grows.
    grow: u32,
}

impl Trace {
    /// A trace of which nothing was read.
    ///
    /// # Errors
    ///
    /// `Memory` if memory runs out.
    pub(crate) fn new(alloc: Global, grow: u32) -> Result<Trace, Memory>
        ensures bytes { IfOk result (λ t. t.lines.bytes ≡ []) }
        ensures passed { IfOk result (λ t. t.lines.passed ≡ 0) }
        ensures count { IfOk result (λ t. t.count ≡ 0) }
        ensures grow { IfOk result (λ t. t.grow ≡ grow) }
    {
        let lines = TraceLines::new(alloc)?;
        Ok(Trace {
            lines,
            count: 0,
            grow,
        })
    }

    /// The number of the last line that was read.
    pub(crate) fn number(&self) -> u64
        ensures { result ≡ self.now.count }
    {
        self.count
    }

    /// Reads a line, and says whether its text is `front`, `name` and a line feed.
    ///
    /// # Errors
    ///
    /// `NotRun` if no line follows that a trace may have at all, and `ReadFault` if bytes couldn't be pulled.
    pub(crate) fn next_line<F: Feeds>(
        &mut self,
        front: &[u8],
        name: &[u8],
        feeds: &mut F,
    ) -> Result<Read, ReplayFault>
        requires open { (F.feeds feeds.old).is_open TRACE_FEED ≡ true }
        requires counted { IsCounted self.old.count self.old.lines.passed }
        ensures read { IfOk result (ReadsLine F.feeds front.now name.now self.old feeds.old self.new
            feeds.new) }
        ensures count { IfOk result (λ _. self.new.count ≡ self.old.count + 1) }
        ensures counted { IfOk result (λ _. IsCounted self.new.count self.new.lines.passed) }
        ensures stops { IfErr result (StopsAtLine F.feeds front.now name.now self.old feeds.old
            self.new feeds.new) }
        ensures failed { OnReadFault result (ReadFails F.feeds feeds.old feeds.new) }
        ensures feed { IfErr result NamesTrace }
        ensures grow { self.new.grow ≡ self.old.grow }
        ensures elsewhere { PullsOnly F.feeds feeds.old feeds.new TRACE_FEED }
    {
        let Ok(scanned) = self.lines.scan(front, name, feeds) else {
            return Err(ReplayFault::ReadFault { feed: TRACE_FEED });
        };
        let read = judge(scanned, self.grow, self.count + 1);
        if read.is_ok() {
            self.count += 1;
        }
        read
    }
}

/// Whether the trace ends behind its end line.
///
/// # Errors
///
/// `NotRun` if it goes on: with `TooLong` past the greatest length of a trace. `ReadFault` if bytes couldn't be pulled.
pub(crate) fn finish<A: Firing, F: Feeds>(
    trace: &mut Trace,
    feeds: &mut F,
) -> Result<(), ReplayFault>
    requires open { (F.feeds feeds.old).is_open TRACE_FEED ≡ true }
    requires counted { IsCounted trace.old.count trace.old.lines.passed }
    ensures whole { OnOk result (PassesEnd A.State trace.old (F.feeds feeds.old)) }
    ensures judged { IfErr result (JudgesEnd A.State trace.old (F.feeds feeds.old)) }
    ensures failed { OnReadFault result (ReadFails F.feeds feeds.old feeds.new) }
    ensures feed { IfErr result NamesTrace }
    ensures elsewhere { PullsOnly F.feeds feeds.old feeds.new TRACE_FEED }
{
    let full = trace.lines.is_full();
    let number = trace.count + 1;
    let Ok(more) = trace.lines.goes_on(feeds) else {
        return Err(ReplayFault::ReadFault { feed: TRACE_FEED });
    };
    if !more {
        return Ok(());
    }
    if full {
        return Err(not_run(number, Why::TooLong));
    }
    Err(not_run(number, Why::After))
}

/// Whether a line is of the table for a trace in which links grow up to this.
fn is_of_table(grow: u32, line: &Line) -> bool
    ensures { result ≡ of_table grow line.now }
{
    match line {
        Line::Grow {
            link: _,
            capacity: _,
        } => grow != 0,
        _ => true,
    }
}

/// The line that was scanned, if a trace may have it; `number` is its number.
fn judge(scanned: Scanned, grow: u32, number: u64) -> Result<Read, ReplayFault>
    ensures line { IfOk result (λ read. (scanned ≡ Scanned.Line read.line read.same)
        × (of_table grow read.line ≡ true)) }
    ensures stops { IfErr result (λ fault. IsStop grow number scanned fault) }
    ensures feed { IfErr result NamesTrace }
{
    match scanned {
        Scanned::Line(line, same) => {
            if is_of_table(grow, &line) {
                Ok(Read { line, same })
            } else {
                Err(not_run(number, Why::Form))
            }
        }
        Scanned::Bad => Err(not_run(number, Why::Form)),
        Scanned::Cut => Err(not_run(number, Why::Cut)),
        Scanned::TooLong => Err(not_run(number, Why::TooLong)),
    }
}

/// What is wrong with a line.
pub(crate) fn not_run(line: u64, why: Why) -> ReplayFault
    ensures { result ≡ ReplayFault.NotRun line why }
{
    ReplayFault::NotRun { line, why }
}
