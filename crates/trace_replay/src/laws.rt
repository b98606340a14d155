//! What holds of all traces.
//!
//! Each law is the contract of a function that does nothing: it is proved with the crate, and can be cited.

ghost use Rattle.trace_replay.specs.Laws.{IsToldOnce, LinesMakeTraces, NewCellsBegin, NoTraceIsNotRun, TracesAreLines, WhatFailsMayNotCome};

use net_model::{Meaning, sent_lists_only_grow};
use trace_text::text_tells_a_line;

/// Lines that lead from the beginning of a text to an end line are a trace with that end line, which plays from the
/// start and keeps the capacities; and each such trace is lines that lead there.
pub fn traces_are_runs<M: Meaning>()
    ensures lines { LinesMakeTraces M.State }
    ensures traces { TracesAreLines M.State }
{}

/// A line of the run that fails for a cause may not come, if the network is wired, its actors are lawful and on no
/// link fewer tokens were sent than at the last delivery. So the cause that is told is one.
pub fn what_fails_may_not_come<M: Meaning>()
    ensures { WhatFailsMayNotCome M.State }
{}

/// A text that is a trace of a run, and not longer than a trace may be, isn't told to be none, whatever the line and
/// the cause, if the network is wired and its actors are lawful.
pub fn no_trace_is_told_to_be_none<M: Meaning>()
    ensures { NoTraceIsNotRun M.State }
{
    text_tells_a_line();
    sent_lists_only_grow::<M>();
}

/// A text that is told to be no trace is told so for one line and one cause, if the network is wired and its actors
/// are lawful.
pub fn no_trace_is_told_once<M: Meaning>()
    ensures { IsToldOnce M.State }
{
    text_tells_a_line();
    sent_lists_only_grow::<M>();
}

/// A run that begins from cells as they were made, before which no token waits, begins where each run of their network
/// over these files does.
pub fn new_cells_begin_at_the_start<M: Meaning>()
    ensures { NewCellsBegin M.State }
{}
