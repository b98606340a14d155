//! The first line of a trace and the lines of its instances.

ghost use Rattle.std.specs.Prelude.{◌≡◌, ◌≢◌, ◌≤◌, ◌+◌, true, false, IfErr, OnOk, string_bytes, length, map};
ghost use Rattle.rvc_io.specs.Feeds.{PullsOnly, ReadFails};
ghost use Rattle.trace_text.specs.declared.line.Line.TheVariants.{Inst};
ghost use Rattle.net_model.specs.Limits.{max_instances};
ghost use Rattle.trace_replay.specs.Head.{JudgesFirst, JudgesInstance, JudgesNames, PassesFirst, ReadsHead, ReadsInstance, ReadsNames, RefusesHead};
ghost use Rattle.trace_replay.specs.Reading.{IsCounted, OnReadFault, NamesTrace};
ghost use Rattle.trace_replay.specs.declared.bytes.TheConstants.{TRACE_FEED};

use crate::reading::{Trace, not_run};
use crate::why::{ReplayFault, Why};
use arrayvec::ArrayVec;
use net_model::Firing;
use rvc_io::Feeds;
use trace_text::{Line, write_front};

/// Whether two lines are the same.
pub(crate) fn is_line(one: &Line, other: &Line) -> bool
    ensures yes { result ≡ true → one.now ≡ other.now }
    ensures no { result ≡ false → one.now ≢ other.now }
{
    *one == *other
}

/// Reads the first line, which is to be this one.
pub(crate) fn read_first<A: Firing, F: Feeds>(
    trace: &mut Trace,
    first: &Line,
    feeds: &mut F,
) -> Result<(), ReplayFault>
    requires open { (F.feeds feeds.old).is_open TRACE_FEED ≡ true }
    requires counted { IsCounted trace.old.count trace.old.lines.passed }
    ensures read { OnOk result (PassesFirst A.State first.now trace.old (F.feeds feeds.old)
        trace.new (F.feeds feeds.new)) }
    ensures judged { IfErr result (JudgesFirst A.State first.now trace.old (F.feeds feeds.old)) }
    ensures number { OnOk result (trace.new.count ≡ trace.old.count + 1) }
    ensures counted { OnOk result (IsCounted trace.new.count trace.new.lines.passed) }
    ensures failed { OnReadFault result (ReadFails F.feeds feeds.old feeds.new) }
    ensures feed { IfErr result NamesTrace }
    ensures grow { trace.new.grow ≡ trace.old.grow }
    ensures elsewhere { PullsOnly F.feeds feeds.old feeds.new TRACE_FEED }
{
    let read = match trace.next_line(&[], &[], feeds) {
        Ok(read) => read,
        Err(fault) => return Err(fault),
    };
    if !is_line(&read.line, first) {
        return Err(not_run(trace.number(), Why::Header));
    }
    Ok(())
}

/// Reads the line of instance k, whose path and class are these.
pub(crate) fn read_instance<A: Firing, F: Feeds>(
    trace: &mut Trace,
    k: u32,
    name: &String,
    feeds: &mut F,
) -> Result<(), ReplayFault>
    requires open { (F.feeds feeds.old).is_open TRACE_FEED ≡ true }
    requires counted { IsCounted trace.old.count trace.old.lines.passed }
    ensures read { OnOk result (ReadsInstance A.State F.feeds k name.now trace.old feeds.old
        trace.new feeds.new) }
    ensures judged { IfErr result (JudgesInstance A.State k (string_bytes name.now) trace.old (F.feeds feeds.old)) }
    ensures number { OnOk result (trace.new.count ≡ trace.old.count + 1) }
    ensures counted { OnOk result (IsCounted trace.new.count trace.new.lines.passed) }
    ensures failed { OnReadFault result (ReadFails F.feeds feeds.old feeds.new) }
    ensures feed { IfErr result NamesTrace }
    ensures grow { trace.new.grow ≡ trace.old.grow }
    ensures elsewhere { PullsOnly F.feeds feeds.old feeds.new TRACE_FEED }
{
    let mut front = ArrayVec::new();
    write_front(k, &mut front);
    let read = match trace.next_line(front.as_slice(), name.as_bytes(), feeds) {
        Ok(read) => read,
        Err(fault) => return Err(fault),
    };
    if !is_instance(&read.line, k, read.same) {
        return Err(not_run(trace.number(), Why::Header));
    }
    Ok(())
}

/// Whether a line is that of instance k, and its text is the expected one.
fn is_instance(line: &Line, k: u32, same: bool) -> bool
    ensures yes { result ≡ true → (line.now ≡ Inst k) × (same ≡ true) }
    ensures no { result ≡ false → (line.now ≡ Inst k) → same ≡ false }
{
    same && is_line(line, &Line::Inst { inst: k })
}

/// Reads the lines of the instances, which have these paths and classes.
pub(crate) fn read_instances<A: Firing, F: Feeds>(
    trace: &mut Trace,
    names: &[String],
    feeds: &mut F,
) -> Result<(), ReplayFault>
    requires open { (F.feeds feeds.old).is_open TRACE_FEED ≡ true }
    requires counted { IsCounted trace.old.count trace.old.lines.passed }
    requires few { length names.now ≤ max_instances }
    ensures read { OnOk result (ReadsNames A.State F.feeds names.now trace.old feeds.old trace.new
        feeds.new) }
    ensures judged { IfErr result (JudgesNames A.State (map string_bytes names.now) trace.old (F.feeds feeds.old)) }
    ensures number { OnOk result (trace.new.count ≡ trace.old.count + length names.now) }
    ensures counted { OnOk result (IsCounted trace.new.count trace.new.lines.passed) }
    ensures failed { OnReadFault result (ReadFails F.feeds feeds.old feeds.new) }
    ensures feed { IfErr result NamesTrace }
    ensures grow { trace.new.grow ≡ trace.old.grow }
    ensures elsewhere { PullsOnly F.feeds feeds.old feeds.new TRACE_FEED }
{
    let mut k = 0u32;
    'names: while (k as usize) < names.len() {
        match read_instance::<A, F>(trace, k, &names[k as usize], feeds) {
            Ok(()) => {}
            Err(fault) => return Err(fault),
        }
        k += 1;
    }
    Ok(())
}

/// Reads what stands before the first event: the first line, which is to be this one, and the lines of instances, which
/// have these paths and classes.
///
/// # Errors
///
/// `NotRun` if a line is another one, with its number and why. `ReadFault` if bytes couldn't be pulled.
pub(crate) fn read_head<A: Firing, F: Feeds>(
    trace: &mut Trace,
    first: &Line,
    names: &[String],
    feeds: &mut F,
) -> Result<(), ReplayFault>
    requires open { (F.feeds feeds.old).is_open TRACE_FEED ≡ true }
    requires counted { IsCounted trace.old.count trace.old.lines.passed }
    requires few { length names.now ≤ max_instances }
    ensures read { OnOk result (ReadsHead A.State F.feeds first.now names.now trace.old feeds.old
        trace.new feeds.new) }
    ensures judged { IfErr result (RefusesHead A.State F.feeds first.now names.now trace.old
        feeds.old) }
    ensures number { OnOk result (trace.new.count ≡ trace.old.count + 1 + length names.now) }
    ensures counted { OnOk result (IsCounted trace.new.count trace.new.lines.passed) }
    ensures failed { OnReadFault result (ReadFails F.feeds feeds.old feeds.new) }
    ensures feed { IfErr result NamesTrace }
    ensures grow { trace.new.grow ≡ trace.old.grow }
    ensures elsewhere { PullsOnly F.feeds feeds.old feeds.new TRACE_FEED }
{
    match read_first::<A, F>(trace, first, feeds) {
        Ok(()) => {}
        Err(fault) => return Err(fault),
    }
    read_instances::<A, F>(trace, names, feeds)
}
