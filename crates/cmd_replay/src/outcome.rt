//! Why a trace wasn't replayed to its end.

use rvc_base::Refusal;
use trace_replay::ReplayFault;

/// Why a trace wasn't replayed to its end.
#[derive(Clone, Copy, Debug, PartialEq, Eq)]
pub(crate) enum NotReplayed {
    /// A port word names no input, or one that a word before it names; or the links may not grow as far as the job asks.
    /// Nothing was opened.
    Refused(Refusal),
    /// The trace is that of no run, a feed couldn't be opened or read, or memory ran out.
    Fault(ReplayFault),
}
