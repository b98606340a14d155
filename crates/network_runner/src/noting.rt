//! The lines of a round.

ghost use Rattle.std.specs.Prelude.{◌≡◌, true, IfSome, OnErr, length};
ghost use Rattle.rvc_io.specs.Channels.{WriteFails, WritesOnly};
ghost use Rattle.trace_text.specs.Text.{IsWhole};
ghost use Rattle.round_runner.specs.Rounds.{end_line};
ghost use Rattle.round_runner.specs.Writing.{Noted, NotedFront};
ghost use Rattle.network_runner.specs.Noting.{NotesFront, NotesRound, close_text, closing_line};
ghost use Rattle.round_runner.specs.declared.TheConstants.{TRACE_CHANNEL};

use channel_writer::ChannelWriter;
use net_model::Firing;
use net_state::NetState;
use round_runner::{RoundEnd, RunEnd, TRACE_CHANNEL, note, note_firings};
use rvc_io::{Drains, Failed};
use trace_text::Line;

/// Writes the lines of a round behind what was written to the trace so far: its delivery, the firings that the
/// `cells` cells' journals name, and the line that closes it, if one does.
///
/// # Errors
///
/// `Failed` if a write failed (`failed`): the channel got a prefix of what was buffered and of the lines (`front`).
pub fn note_round<A: Firing, D: Drains>(
    net: &NetState<A>,
    cells: u32,
    answer: RoundEnd,
    trace: &mut ChannelWriter,
    drains: &mut D,
) -> Result<(), Failed>
    requires all { cells ≡ length net.now.cells }
    requires open { (D.channels drains.old).is_open TRACE_CHANNEL ≡ true }
    ensures written { NotesRound A.cell D.channels net.now.cells answer drains.old drains.new
        trace.old trace.new result }
    ensures front { NotesFront A.cell D.channels net.now.cells answer drains.old drains.new
        trace.old result }
    ensures failed { OnErr result (WriteFails D.channels drains.old drains.new) }
    ensures elsewhere { WritesOnly D.channels drains.old drains.new TRACE_CHANNEL }
{
    note(&Line::Deliver, trace, drains)?;
    note_firings(net, cells, trace, drains)?;
    note_close(answer, trace, drains)
}

/// Writes the line that closes a round, if one does.
fn note_close<D: Drains>(
    answer: RoundEnd,
    trace: &mut ChannelWriter,
    drains: &mut D,
) -> Result<(), Failed>
    requires open { (D.channels drains.old).is_open TRACE_CHANNEL ≡ true }
    ensures written { Noted D.channels drains.old drains.new trace.old trace.new
        (close_text answer) result }
    ensures front { NotedFront D.channels drains.old drains.new trace.old
        (close_text answer) result }
    ensures failed { OnErr result (WriteFails D.channels drains.old drains.new) }
    ensures elsewhere { WritesOnly D.channels drains.old drains.new TRACE_CHANNEL }
{
    match closing_line(answer) {
        Some(line) => note(&line, trace, drains),
        None => Ok(()),
    }
}

/// The line that closes a round, if one does.
fn closing_line(answer: RoundEnd) -> Option<Line>
    ensures is { result ≡ closing_line answer }
    ensures whole { IfSome result IsWhole }
{
    match answer {
        RoundEnd::Fired(_) | RoundEnd::Idle => None,
        RoundEnd::Grew { link, capacity } => Some(Line::Grow {
            link: link.0,
            capacity,
        }),
        RoundEnd::End(end) => end_line(end),
    }
}

/// The line of an end; a fault has none.
fn end_line(end: RunEnd) -> Option<Line>
    ensures is { result ≡ end_line end }
    ensures whole { IfSome result IsWhole }
{
    match end {
        RunEnd::Quiet => Some(Line::Quiet),
        RunEnd::Trapped { inst, action, trap } => Some(Line::Trap {
            inst: inst.0,
            action: action.0,
            trap,
        }),
        RunEnd::Stalled { inst, action, link } => Some(Line::Stall {
            inst: inst.0,
            action: action.0,
            link: link.0,
        }),
        RunEnd::Budget => Some(Line::Budget),
        RunEnd::ReadFault { feed: _ } | RunEnd::WriteFault { channel: _ } => None,
    }
}
