//! Event lines on their way to the trace's channel.

ghost use Rattle.std.specs.Prelude.{◌≡◌, true, OnErr, length};
ghost use Rattle.rvc_io.specs.Channels.{WriteFails, WritesOnly};
ghost use Rattle.trace_text.specs.Text.{line_text, IsWhole};
ghost use Rattle.trace_text.specs.declared.line.Line.TheVariants.{Fire as FireLine};
ghost use Rattle.round_runner.specs.Firings.{firings_of, journal_text};
ghost use Rattle.round_runner.specs.Writing.{Noted, NotedFront};

use crate::TRACE_CHANNEL;
use arrayvec::ArrayVec;
use channel_writer::ChannelWriter;
use net_model::Firing;
use net_state::NetState;
use rvc_base::InstId;
use rvc_io::{Drains, Failed};
use trace_text::{Line, write_line};

/// Writes a line behind what was written to the trace so far.
///
/// # Errors
///
/// `Failed` if a write failed (`failed`): the channel got a prefix of what was buffered and of the line (`front`).
pub fn note<D: Drains>(line: &Line, trace: &mut ChannelWriter, drains: &mut D) -> Result<(), Failed>
    requires open { (D.channels drains.old).is_open TRACE_CHANNEL ≡ true }
    requires whole { IsWhole line.now }
    ensures written { Noted D.channels drains.old drains.new trace.old trace.new
        (line_text line.now) result }
    ensures front { NotedFront D.channels drains.old drains.new trace.old
        (line_text line.now) result }
    ensures failed { OnErr result (WriteFails D.channels drains.old drains.new) }
    ensures elsewhere { WritesOnly D.channels drains.old drains.new TRACE_CHANNEL }
{
    let mut text = ArrayVec::<u8, 64>::new();
    write_line(line, &mut text);
    trace.write(drains, TRACE_CHANNEL, text.as_slice())
}

/// Writes a line for each firing that the cells' journals name, cell by cell.
///
/// # Errors
///
/// `Failed` if a write failed (`failed`): the channel got a prefix of what was buffered and of the lines (`front`).
pub fn note_firings<A: Firing, D: Drains>(
    net: &NetState<A>,
    cells: u32,
    trace: &mut ChannelWriter,
    drains: &mut D,
) -> Result<(), Failed>
    requires all { cells ≡ length net.now.cells }
    requires open { (D.channels drains.old).is_open TRACE_CHANNEL ≡ true }
    ensures written { Noted D.channels drains.old drains.new trace.old trace.new
        (firings_of A.cell net.now) result }
    ensures front { NotedFront D.channels drains.old drains.new trace.old
        (firings_of A.cell net.now) result }
    ensures failed { OnErr result (WriteFails D.channels drains.old drains.new) }
    ensures elsewhere { WritesOnly D.channels drains.old drains.new TRACE_CHANNEL }
{
    for i in 0..cells {
        let inst = InstId(i);
        note_journal(inst, net.journal(inst), trace, drains)?;
    }
    Ok(())
}

/// Writes a line for each of these firings of an instance, in order. Firings of one action in a row have the same line, which
/// is made once.
fn note_journal<D: Drains>(
    inst: InstId,
    actions: &[u16],
    trace: &mut ChannelWriter,
    drains: &mut D,
) -> Result<(), Failed>
    requires open { (D.channels drains.old).is_open TRACE_CHANNEL ≡ true }
    ensures written { Noted D.channels drains.old drains.new trace.old trace.new
        (journal_text inst.0 actions.now) result }
    ensures front { NotedFront D.channels drains.old drains.new trace.old
        (journal_text inst.0 actions.now) result }
    ensures failed { OnErr result (WriteFails D.channels drains.old drains.new) }
    ensures elsewhere { WritesOnly D.channels drains.old drains.new TRACE_CHANNEL }
{
    let Some(&first) = actions.first() else {
        return Ok(());
    };
    let mut line = line_of_firing(inst, first);
    for k in 0..actions.len() {
        turn_to(&mut line, inst, actions[k]);
        trace.write(drains, TRACE_CHANNEL, line.text.as_slice())?;
    }
    Ok(())
}

/// The line of a firing of an instance.
#[derive(Drop)]
struct FiringLine {
    action: u16,
    text: ArrayVec<u8, 64>,
}

fn line_of_firing(inst: InstId, action: u16) -> FiringLine
    ensures action { result.action ≡ action }
    ensures text { result.text.items ≡ line_text (FireLine inst.0 action) }
{
    let line = Line::Fire {
        inst: inst.0,
        action,
    };
    let mut text = ArrayVec::new();
    write_line(&line, &mut text);
    FiringLine { action, text }
}

/// Makes the line of a firing of an instance that of a firing of this action.
fn turn_to(line: &mut FiringLine, inst: InstId, action: u16)
    requires { line.old.text.items ≡ line_text (FireLine inst.0 line.old.action) }
    ensures action { line.new.action ≡ action }
    ensures text { line.new.text.items ≡ line_text (FireLine inst.0 action) }
{
    if line.action != action {
        *line = line_of_firing(inst, action);
    }
}
