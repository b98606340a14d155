//! The lines of a run, one after another up to the end line.

ghost use Rattle.std.specs.Prelude.{◌≡◌, ◌≤◌, true, IfOk, IfErr, is_some, length, map};
ghost use Rattle.rvc_io.specs.Feeds.{PullsOnly, ReadFails};
ghost use Rattle.net_model.specs.Limits.{max_instances};
ghost use Rattle.trace_replay.specs.Between.{IsReadyToGo};
ghost use Rattle.trace_replay.specs.Events.{EndsEvents, EndsTrace, EndsWhole, JudgesEvents, JudgesTrace};
ghost use Rattle.trace_replay.specs.Feeding.{OnlyPulls};
ghost use Rattle.trace_replay.specs.Head.{JudgesEnd};
ghost use Rattle.trace_replay.specs.Reading.{IsCounted, OnReadFault, NamesRead, NamesTrace};
ghost use Rattle.trace_replay.specs.declared.bytes.TheConstants.{TRACE_FEED};

use crate::between::Replay;
use crate::came::Came;
use crate::head::read_head;
use crate::reading::{Trace, finish, not_run};
use crate::why::ReplayFault;
use net_model::Firing;
use rvc_io::Feeds;
use trace_text::Line;

/// Reads lines of a run up to its end line, which counts them, and whether the trace ends there.
///
/// # Errors
///
/// `NotRun` if a line may not come, with its number and why. `ReadFault` if bytes couldn't be pulled.
pub(crate) fn read_events<A: Firing, F: Feeds>(
    trace: &mut Trace,
    replay: &mut Replay<A>,
    feeds: &mut F,
) -> Result<Line, ReplayFault>
    requires open { (F.feeds feeds.old).is_open TRACE_FEED ≡ true }
    requires counted { IsCounted trace.old.count trace.old.lines.passed }
    requires count { replay.old.count ≡ length replay.old.state.cells }
    requires ready { IsReadyToGo A.cell F.feeds replay.old feeds.old }
    requires grow { trace.old.grow ≡ replay.old.grow }
    requires noted { length replay.old.noted.items ≡ length replay.old.links.items }
    requires none_fired { replay.old.numbers.firings ≡ 0 }
    requires none_delivered { replay.old.numbers.rounds ≡ 0 }
    ensures ended { IfOk result (λ end. EndsEvents A.cell F.feeds trace.old replay.old feeds.old end
        replay.new.numbers) }
    ensures judged { IfErr result (JudgesEvents A.cell F.feeds trace.old replay.old feeds.old) }
    ensures failed { OnReadFault result (ReadFails F.feeds feeds.old feeds.new) }
    ensures feed { IfErr result (NamesRead replay.old.links.items
        (map is_some replay.old.readers.items)) }
    ensures feeds_stay { OnlyPulls (F.feeds feeds.old) (F.feeds feeds.new) }
{
    'lines: loop {
        let read = match trace.next_line(&[], &[], feeds) {
            Ok(read) => read,
            Err(fault) => return Err(fault),
        };
        match replay.come(&read.line, feeds) {
            Came::Goes => {}
            Came::Ends => return end_at::<A, F>(trace, read.line, feeds),
            Came::Fails(why) => return Err(not_run(trace.number(), why)),
            Came::FeedFails(feed) => return Err(ReplayFault::ReadFault { feed }),
        }
    }
}

/// The end line that was read, if the trace ends behind it.
fn end_at<A: Firing, F: Feeds>(
    trace: &mut Trace,
    end: Line,
    feeds: &mut F,
) -> Result<Line, ReplayFault>
    requires open { (F.feeds feeds.old).is_open TRACE_FEED ≡ true }
    requires counted { IsCounted trace.old.count trace.old.lines.passed }
    ensures whole { IfOk result (EndsWhole A.State F.feeds end trace.old feeds.old) }
    ensures judged { IfErr result (JudgesEnd A.State trace.old (F.feeds feeds.old)) }
    ensures failed { OnReadFault result (ReadFails F.feeds feeds.old feeds.new) }
    ensures feed { IfErr result NamesTrace }
    ensures elsewhere { PullsOnly F.feeds feeds.old feeds.new TRACE_FEED }
{
    match finish::<A, F>(trace, feeds) {
        Ok(()) => Ok(end),
        Err(fault) => Err(fault),
    }
}

/// Reads a trace from its first line, which is to be this one, up to its end line. The instances have these paths and
/// classes.
///
/// # Errors
///
/// `NotRun` if a line may not come, with its number and why. `ReadFault` if bytes couldn't be pulled.
pub(crate) fn read_trace<A: Firing, F: Feeds>(
    trace: &mut Trace,
    replay: &mut Replay<A>,
    first: &Line,
    names: &[String],
    feeds: &mut F,
) -> Result<Line, ReplayFault>
    requires open { (F.feeds feeds.old).is_open TRACE_FEED ≡ true }
    requires counted { IsCounted trace.old.count trace.old.lines.passed }
    requires few { length names.now ≤ max_instances }
    requires count { replay.old.count ≡ length replay.old.state.cells }
    requires ready { IsReadyToGo A.cell F.feeds replay.old feeds.old }
    requires grow { trace.old.grow ≡ replay.old.grow }
    requires noted { length replay.old.noted.items ≡ length replay.old.links.items }
    requires none_fired { replay.old.numbers.firings ≡ 0 }
    requires none_delivered { replay.old.numbers.rounds ≡ 0 }
    ensures ended { IfOk result (λ end. EndsTrace A.cell F.feeds first.now names.now trace.old
        replay.old feeds.old end replay.new.numbers) }
    ensures judged { IfErr result (JudgesTrace A.cell F.feeds first.now names.now trace.old replay.old
        feeds.old) }
    ensures failed { OnReadFault result (ReadFails F.feeds feeds.old feeds.new) }
    ensures feed { IfErr result (NamesRead replay.old.links.items
        (map is_some replay.old.readers.items)) }
    ensures feeds_stay { OnlyPulls (F.feeds feeds.old) (F.feeds feeds.new) }
{
    match read_head::<A, F>(trace, first, names, feeds) {
        Ok(()) => {}
        Err(fault) => return Err(fault),
    }
    read_events(trace, replay, feeds)
}
