//! Replay of a recorded trace over the actors that ran.

ghost use Rattle.std.specs.Prelude.{IfOk, IfErr, map, string_bytes};
ghost use Rattle.rvc_io.specs.Feeds.{ReadFails};
ghost use Rattle.trace_replay.specs.Feeding.{OnlyPulls};
ghost use Rattle.trace_replay.specs.Reading.{OnReadFault, NamesFeed};
ghost use Rattle.trace_replay.specs.Replaying.{CanReplay, RefusesOn, ReplaysOn};

use crate::between::Replay;
use crate::events::read_trace;
use crate::laws::{no_trace_is_told_to_be_none, traces_are_runs};
use crate::reading::Trace;
use crate::replayed::Replayed;
use crate::states::StatesOf;
use crate::why::ReplayFault;
use net_model::{Firing, Wiring};
use net_state::ready_networks_can_work;
use rvc_io::Feeds;
use std::alloc::Global;
use trace_text::text_tells_lines;

/// Replays a recorded trace, which is pulled from the feed [`TRACE_FEED`](crate::TRACE_FEED): whether it is the trace
/// of a run of the network that the cells and their wiring make, over what the feeds of its inputs have.
///
/// The run begins from the cells as they are. `names` are the path and the class of each cell, with a blank between
/// them. `grow` is the greatest capacity to which a link may grow at a stall, 0 if none may. Feeds of input links are
/// numbered from [`FIRST_INPUT`](crate::FIRST_INPUT) on, in link order; an input without feed has no tokens. The trace
/// is read in pieces, and no more than a line of it is held. All memory is taken before the first piece is pulled.
///
/// # Errors
///
/// `NotRun` if no run has a line with the lines before it, with its number and why (`refused`). `ReadFault` if bytes couldn't
/// be pulled from the trace or from the feed of an input link (`failed`, `feed`). `Memory` if memory runs out.
pub fn replay<A: Firing, F: Feeds>(
    alloc: Global,
    cells: Vec<A>,
    wiring: Wiring,
    grow: u32,
    names: &[String],
    feeds: &mut F,
) -> Result<Replayed, ReplayFault>
    requires can { CanReplay (map A.cell cells.items) wiring grow (map string_bytes names.now)
        (F.feeds feeds.old) }
    ensures replayed { IfOk result (λ r. ReplaysOn A.cell F.feeds cells.items wiring grow names.now
        feeds.old r) }
    ensures refused { IfErr result (RefusesOn A.cell F.feeds cells.items wiring grow names.now
        feeds.old) }
    ensures failed { OnReadFault result (ReadFails F.feeds feeds.old feeds.new) }
    ensures feed { IfErr result (NamesFeed wiring.links.items wiring.open_ins.items) }
    ensures feeds_stay { OnlyPulls (F.feeds feeds.old) (F.feeds feeds.new) }
{
    ready_networks_can_work::<StatesOf<A>>();
    traces_are_runs::<StatesOf<A>>();
    no_trace_is_told_to_be_none::<StatesOf<A>>();
    text_tells_lines();
    let Ok(mut trace) = Trace::new(alloc, grow) else {
        return Err(ReplayFault::Memory);
    };
    let Ok(mut replay) = Replay::new(alloc, cells, wiring, grow) else {
        return Err(ReplayFault::Memory);
    };
    let first = replay.first_line();
    let end = match read_trace(&mut trace, &mut replay, &first, names, feeds) {
        Ok(end) => end,
        Err(fault) => return Err(fault),
    };
    Ok(Replayed {
        end,
        counts: replay.into_numbers(),
    })
}
