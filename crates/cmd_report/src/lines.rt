//! The lines of verbs.

ghost use Rattle.std.specs.Prelude.{◌≡◌, ◌++◌, true, [], slice_index_or, string_bytes};
ghost use Rattle.cmd_ports.specs.Matching.{names_of};
ghost use Rattle.cmd_report.specs.Puts.{Puts};
ghost use Rattle.cmd_report.specs.About.{about};
ghost use Rattle.cmd_report.specs.Report.{certified_line, certified_lines, count_lines, in_line, in_lines, in_lines_at, out_line, out_lines, run_lines, size_lines};

use crate::puts::{REPORT_CHANNEL, put_line};
use crate::subject::Subject;
use crate::words::Word;
use net_model::{Counts, End, Link, Port};
use rvc_io::{Drains, Failed};

/// Puts the lines of a verb that makes or replays a run: the numbers of the network and of the run, a line for each input
/// link, and one for each output.
pub(crate) fn put_run_lines<D: Drains>(
    subject: &Subject<'_>,
    certified: Option<u64>,
    counts: &Counts,
    drains: &mut D,
) -> Result<(), Failed>
    requires { (D.channels drains.old).is_open REPORT_CHANNEL ≡ true }
    ensures { Puts result (run_lines (about subject.now) certified counts.now)
        (D.channels drains.old) (D.channels drains.new) }
{
    put_numbers(subject, certified, counts, drains)?;
    put_ports(subject, counts, drains)
}

/// Puts the numbers of the network and of the run.
fn put_numbers<D: Drains>(
    subject: &Subject<'_>,
    certified: Option<u64>,
    counts: &Counts,
    drains: &mut D,
) -> Result<(), Failed>
    requires { (D.channels drains.old).is_open REPORT_CHANNEL ≡ true }
    ensures { Puts result (size_lines (about subject.now) ++ certified_lines certified
        ++ count_lines counts.now) (D.channels drains.old) (D.channels drains.new) }
{
    put_size(subject, drains)?;
    put_certified_if(certified, drains)?;
    put_counts(counts, drains)
}

/// Puts the lines of input links and of outputs.
fn put_ports<D: Drains>(
    subject: &Subject<'_>,
    counts: &Counts,
    drains: &mut D,
) -> Result<(), Failed>
    requires { (D.channels drains.old).is_open REPORT_CHANNEL ≡ true }
    ensures { Puts result (in_lines 0 subject.now.links.now (names_of subject.now.ins.now) counts.now
        ++ out_lines 0 (names_of subject.now.outs.now) counts.now)
        (D.channels drains.old) (D.channels drains.new) }
{
    put_inputs(subject.links, subject.ins, counts, drains)?;
    put_outputs(subject.outs, counts, drains)
}

/// Puts how many instances and links there are.
pub(crate) fn put_size<D: Drains>(subject: &Subject<'_>, drains: &mut D) -> Result<(), Failed>
    requires { (D.channels drains.old).is_open REPORT_CHANNEL ≡ true }
    ensures { Puts result (size_lines (about subject.now)) (D.channels drains.old)
        (D.channels drains.new) }
{
    put_line(b"instances", &[Word::Number(subject.instances)], drains)?;
    put_line(
        b"links",
        &[Word::Number(subject.links.len() as u64)],
        drains,
    )
}

/// Puts how many instances are certified.
pub(crate) fn put_certified<D: Drains>(certified: u64, drains: &mut D) -> Result<(), Failed>
    requires { (D.channels drains.old).is_open REPORT_CHANNEL ≡ true }
    ensures { Puts result (certified_line certified) (D.channels drains.old)
        (D.channels drains.new) }
{
    put_line(b"certified", &[Word::Number(certified)], drains)
}

/// Puts how many instances are certified, if that is known.
fn put_certified_if<D: Drains>(certified: Option<u64>, drains: &mut D) -> Result<(), Failed>
    requires { (D.channels drains.old).is_open REPORT_CHANNEL ≡ true }
    ensures { Puts result (certified_lines certified) (D.channels drains.old)
        (D.channels drains.new) }
{
    match certified {
        Some(certified) => put_certified(certified, drains),
        None => Ok(()),
    }
}

/// Puts how many firings and deliveries were made.
fn put_counts<D: Drains>(counts: &Counts, drains: &mut D) -> Result<(), Failed>
    requires { (D.channels drains.old).is_open REPORT_CHANNEL ≡ true }
    ensures { Puts result (count_lines counts.now) (D.channels drains.old)
        (D.channels drains.new) }
{
    put_line(b"firings", &[Word::Number(counts.firings)], drains)?;
    put_line(b"rounds", &[Word::Number(counts.rounds)], drains)
}

/// Puts the lines of input links.
fn put_inputs<D: Drains>(
    links: &[Link],
    ins: &[Port],
    counts: &Counts,
    drains: &mut D,
) -> Result<(), Failed>
    requires { (D.channels drains.old).is_open REPORT_CHANNEL ≡ true }
    ensures { Puts result (in_lines 0 links.now (names_of ins.now) counts.now)
        (D.channels drains.old) (D.channels drains.new) }
{
    let mut number = 0;
    let mut rest = links;
    'links: while let Some((link, others)) = rest.split_first() {
        put_link(link, number, ins, counts, drains)?;
        number += 1;
        rest = others;
    }
    Ok(())
}

/// Puts the line of a link, if it begins at an input.
fn put_link<D: Drains>(
    link: &Link,
    number: usize,
    ins: &[Port],
    counts: &Counts,
    drains: &mut D,
) -> Result<(), Failed>
    requires { (D.channels drains.old).is_open REPORT_CHANNEL ≡ true }
    ensures { Puts result (in_lines_at link.now.from number (names_of ins.now) counts.now)
        (D.channels drains.old) (D.channels drains.new) }
{
    match link.from {
        End::Leaf { inst: _, port: _ } => Ok(()),
        End::Net { port } => {
            let arrived = number_at(counts.arrived.as_slice(), number);
            let rest = rest_at(counts.rests.as_slice(), number);
            put_input(name_at(ins, port as usize), number, arrived, rest, drains)
        }
    }
}

/// Puts the line of an input link.
fn put_input<D: Drains>(
    name: &[u8],
    number: usize,
    arrived: u64,
    rest: u8,
    drains: &mut D,
) -> Result<(), Failed>
    requires { (D.channels drains.old).is_open REPORT_CHANNEL ≡ true }
    ensures { Puts result (in_line name.now number arrived rest) (D.channels drains.old)
        (D.channels drains.new) }
{
    let words = [
        Word::Text(name),
        Word::Number(number as u64),
        Word::Text(b"tokens"),
        Word::Number(arrived),
        Word::Text(b"rest"),
        Word::Number(rest as u64),
    ];
    put_line(b"in", &words, drains)
}

/// Puts the lines of outputs.
fn put_outputs<D: Drains>(outs: &[Port], counts: &Counts, drains: &mut D) -> Result<(), Failed>
    requires { (D.channels drains.old).is_open REPORT_CHANNEL ≡ true }
    ensures { Puts result (out_lines 0 (names_of outs.now) counts.now) (D.channels drains.old)
        (D.channels drains.new) }
{
    let mut number = 0;
    let mut rest = outs;
    'outs: while let Some((port, others)) = rest.split_first() {
        put_output(port, number, counts, drains)?;
        number += 1;
        rest = others;
    }
    Ok(())
}

/// Puts the line of an output, which has this number.
fn put_output<D: Drains>(
    port: &Port,
    number: usize,
    counts: &Counts,
    drains: &mut D,
) -> Result<(), Failed>
    requires { (D.channels drains.old).is_open REPORT_CHANNEL ≡ true }
    ensures { Puts result (out_line (string_bytes port.now.name)
        (slice_index_or counts.now.sent.items number 0)) (D.channels drains.old)
        (D.channels drains.new) }
{
    let words = [
        Word::Text(port.name.as_bytes()),
        Word::Text(b"tokens"),
        Word::Number(number_at(counts.sent.as_slice(), number)),
    ];
    put_line(b"out", &words, drains)
}

/// The name of the port at a place, or nothing.
fn name_at(ports: &[Port], place: usize) -> &[u8]
    ensures { result.now ≡ slice_index_or (names_of ports.now) place [] }
{
    match ports.get(place) {
        Some(port) => port.name.as_bytes(),
        None => b"",
    }
}

/// The number at a place, or 0.
fn number_at(numbers: &[u64], place: usize) -> u64
    ensures { result ≡ slice_index_or numbers.now place 0 }
{
    match numbers.get(place) {
        Some(number) => *number,
        None => 0,
    }
}

/// The number at a place, or 0.
fn rest_at(numbers: &[u8], place: usize) -> u8
    ensures { result ≡ slice_index_or numbers.now place 0 }
{
    match numbers.get(place) {
        Some(number) => *number,
        None => 0,
    }
}
