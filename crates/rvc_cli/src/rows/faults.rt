//! Runs of which one call fails, whichever it is: the status names it, and the trace and the outputs hold prefixes of
//! what they hold where no call fails.

use crate::rows::decoder::{FILES, HEAD, REPORT, WORDS, number, output, trace};
use crate::rows::running::{Left, ROOM, run_row};
use kit_commands::{Row, cut};
use rvc_io::OpenGate;
use rvc_top::{ReadAt, Status};
use std::alloc::{AllocError, Global};
use std::process::Abort;
use std::thread::Threads;

/// A run that nothing disturbs: its words and files, and what it leaves in the report, the trace and the output. So many
/// bytes of the trace stand before the first delivery. `unfed` is the report if the input can't be read.
#[derive(Clone, Copy)]
struct Whole<'a> {
    words: &'a str,
    files: &'a str,
    unfed: &'a [u8],
    report: &'a [u8],
    head: usize,
    trace: &'a [u8],
    output: &'a [u8],
}

/// A run of an actor that adds one.
const INC: Whole = Whole {
    words: "rvc run Inc.cal In=in Out=out --trace t",
    files: "Inc.cal actor Inc() uint(size=8) In ==> uint(size=8) Out : action In:[a] ==> Out:[a + 1] end end",
    unfed: b"read fault in\n",
    report: b"instances 1\nlinks 2\ncertified 1\nfirings 3\nrounds 2\nin In 0 tokens 3 rest 0\nout Out tokens 3\nquiet\n",
    head: 28,
    trace: b"rvc-trace 1 1 2\ni 0 Inc Inc\nr\nf 0 0\nf 0 0\nf 0 0\nr\nq\n",
    output: &[1, 2, 0],
};

/// The calls of one object that fail in turn, one in each run.
#[derive(Clone, Copy)]
enum Fails {
    Read(u64),
    Feed(u64),
    Channel(u64),
}

/// Runs a row of which this call fails, by calls of at most so many bytes.
fn run_cut<R: Abort + Threads + Sync>(
    rt: &R,
    alloc: Global,
    whole: Whole<'_>,
    step: u32,
    fails: Fails,
) -> Left {
    let row = Row::of_line(whole.words, whole.files, step);
    let row = match fails {
        Fails::Read(read) => Row { read, ..row },
        Fails::Feed(feed) => Row { feed, ..row },
        Fails::Channel(channel) => Row { channel, ..row },
    };
    run_row(rt, alloc, &row, ROOM, &OpenGate)
}

/// Whether bytes are the first of others.
fn is_prefix(part: &[u8], whole: &[u8]) -> bool {
    match whole.get(..part.len()) {
        Some(front) => front == part,
        None => false,
    }
}

/// Whether the report, the trace and the output are these.
fn holds_all(left: &Left, report: &[u8], trace: &[u8], output: &[u8]) -> bool {
    let drains = &left.drains;
    drains.held(0) == report && drains.held(1) == trace && drains.held(2) == output
}

/// Whether a row ended as if no call had failed.
fn is_whole(left: &Left, whole: Whole<'_>) -> bool {
    left.status == Status::Quiet && holds_all(left, whole.report, whole.trace, whole.output)
}

/// Stops unless each read that fails is named, with nothing written but the report, and as many and one more aren't made.
/// A line has the number of the file that is read, and its name.
fn hold_reads<R: Abort + Threads + Sync>(rt: &R, alloc: Global, whole: Whole<'_>, reads: &str) {
    let mut read = 0u64;
    for line in reads.lines() {
        read = read.saturating_add(1);
        let left = run_cut(rt, alloc, whole, 1000, Fails::Read(read));
        let holds = is_unread(alloc, &left, line).expect(rt, "a text");
        assert!(rt; holds, "{line}");
    }
    let left = run_cut(rt, alloc, whole, 1000, Fails::Read(read.saturating_add(1)));
    assert!(rt; is_whole(&left, whole), "{reads}");
}

/// Whether a row ended as it should if the read of this file fails.
fn is_unread(alloc: Global, left: &Left, line: &str) -> Result<bool, AllocError> {
    let (file, name) = cut(line, " ");
    let report = format!(in alloc; "read fault {name}\n")?;
    let status = format!(in alloc; "{:?}", left.status)?;
    let named = format!(in alloc; "ReadFault(File({file}))")?;
    Ok(status == named && holds_all(left, report.as_bytes(), &[], &[]))
}

/// Whether a row ended as it should if this call to the feeds fails, after which so many calls could. If the feed isn't
/// opened, nothing but the report is written; later no line of the first delivery is.
fn is_unfed(left: &Left, whole: Whole<'_>, call: u64, calls: u64) -> bool {
    if call > calls {
        return is_whole(left, whole);
    }
    let head = if call == 1 { 0 } else { whole.head };
    match whole.trace.get(..head) {
        Some(head) => {
            left.status == Status::ReadFault(ReadAt::Feed(1))
                && holds_all(left, whole.unfed, head, &[])
        }
        None => false,
    }
}

/// Stops unless each call to the feeds that fails ends the row as it should. A line has how many bytes a call moves at most,
/// and how many calls there are: the opening, those that move bytes, and the one that finds the end.
fn hold_feeds<R: Abort + Threads + Sync>(rt: &R, alloc: Global, whole: Whole<'_>, counts: &str) {
    for line in counts.lines() {
        let (step, calls) = cut(line, " ");
        let step = step.parse().unwrap_or(1);
        let calls = number(calls);
        for call in 1..calls.saturating_add(2) {
            let left = run_cut(rt, alloc, whole, step, Fails::Feed(call));
            assert!(rt; is_unfed(&left, whole, call, calls), "feeds {line} {call}");
        }
    }
}

/// Whether the trace and the output are prefixes of what they should be, and the channel that is named isn't whole. A
/// put of the report fails after all else is written.
fn has_prefixes(left: &Left, whole: Whole<'_>, channel: u32, report: &[u8]) -> bool {
    let drains = &left.drains;
    let (told, trace, output) = (drains.held(0), drains.held(1), drains.held(2));
    if !is_prefix(trace, whole.trace) || !is_prefix(output, whole.output) {
        return false;
    }
    match channel {
        0 => {
            trace == whole.trace
                && output == whole.output
                && told != whole.report
                && is_prefix(told, whole.report)
        }
        1 => trace != whole.trace && told == report,
        2 => output != whole.output && told == report,
        _ => false,
    }
}

/// How many bytes were put before the report of a fault.
fn bytes_put(left: &Left, channel: u32) -> u64 {
    let drains = &left.drains;
    let told = match channel {
        0 => drains.held(0).len(),
        _ => 0,
    };
    let (trace, output) = (drains.held(1).len(), drains.held(2).len());
    (told as u64)
        .saturating_add(trace as u64)
        .saturating_add(output as u64)
}

/// Whether a row ended as it should if this call to the channels fails, of which the first two open the trace and the
/// output, and each later one puts one byte at least and so many at most.
fn is_unwritten(
    alloc: Global,
    left: &Left,
    whole: Whole<'_>,
    step: u32,
    call: u64,
) -> Result<bool, AllocError> {
    let Status::WriteFault { channel } = left.status else {
        return Ok(false);
    };
    let report = format!(in alloc; "write fault {channel}\n")?;
    let puts = call.saturating_sub(3);
    let bytes = bytes_put(left, channel);
    let opens = call > 2 || (call == u64::from(channel) && bytes == 0);
    let moved = puts <= bytes && bytes <= puts.saturating_mul(u64::from(step));
    Ok(opens && moved && has_prefixes(left, whole, channel, report.as_bytes()))
}

/// Stops unless each call to the channels that fails ends the row as it should. By calls of at most `step` bytes there are
/// so many at least and at most.
fn hold_puts<R: Abort + Threads + Sync>(
    rt: &R,
    alloc: Global,
    whole: Whole<'_>,
    step: u32,
    least: u64,
    most: u64,
) {
    for call in 1..most.saturating_add(1) {
        let left = run_cut(rt, alloc, whole, step, Fails::Channel(call));
        if call > least && is_whole(&left, whole) {
            return;
        }
        let holds = is_unwritten(alloc, &left, whole, step, call).expect(rt, "a text");
        assert!(rt; holds, "channels {step} {call}");
    }
    let left = run_cut(
        rt,
        alloc,
        whole,
        step,
        Fails::Channel(most.saturating_add(1)),
    );
    assert!(rt; is_whole(&left, whole), "channels {step} {most}");
}

/// The same for lines of such numbers: the most bytes of a call, and the least and the most calls.
fn hold_channels<R: Abort + Threads + Sync>(rt: &R, alloc: Global, whole: Whole<'_>, counts: &str) {
    for line in counts.lines() {
        let (step, rest) = cut(line, " ");
        let (least, most) = cut(rest, " ");
        let step = step.parse().unwrap_or(1);
        hold_puts(rt, alloc, whole, step, number(least), number(most));
    }
}

/// The report has 98 bytes, the trace 52 and the output 3.
#[test]
fn each_call_of_an_actor_fails_once(rt: HostRuntime) {
    hold_reads(&rt, rt.alloc(), INC, "1 Inc.cal");
    hold_feeds(&rt, rt.alloc(), INC, "1 5\n3 3\n1000 3");
    hold_channels(&rt, rt.alloc(), INC, "1 155 155\n3 54 155\n1000 5 155");
}

/// The files of the decoder as they are read. A network is looked for before an actor, and a file that can't be read has
/// the number that the one of its class would get.
const READS: &str = "1 dec/Top.xdf
2 dec/Rld.xdf
2 dec/Rld.cal
3 dec/Block.xdf
4 dec/Zigzag.xdf
4 dec/Zigzag.cal
5 dec/Sat.xdf
5 dec/Sat.cal";

/// The report has 101 bytes, the trace 880 and the output 64.
#[test]
fn each_call_of_a_decoder_fails_once(rt: HostRuntime) {
    let lines = trace(rt.alloc()).expect(&rt, "a trace");
    let bytes = output(rt.alloc()).expect(&rt, "an output");
    let whole = Whole {
        words: WORDS,
        files: FILES,
        unfed: b"read fault block\n",
        report: REPORT,
        head: HEAD,
        trace: lines.as_bytes(),
        output: &bytes,
    };
    hold_reads(&rt, rt.alloc(), whole, READS);
    hold_feeds(&rt, rt.alloc(), whole, "1 18\n3 8\n1000 3");
    hold_channels(&rt, rt.alloc(), whole, "16 68 1047");
}
