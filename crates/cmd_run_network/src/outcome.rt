//! How a job is answered.

use net_model::Counts;
use round_runner::RunEnd;
use rvc_base::Refusal;

/// How a run ended, and its numbers.
#[derive(Drop)]
pub struct Outcome {
    /// A feed that couldn't be read, or a channel that couldn't be written, is an end too.
    pub end: RunEnd,
    pub counts: Counts,
}

/// Why no round was made.
#[derive(Clone, Copy, Debug, PartialEq, Eq)]
pub enum JobFault {
    /// A port word names no port, or one that a word before it names; or the links may grow too far. Nothing was opened.
    Refused(Refusal),
    /// Memory ran out. Nothing was opened.
    Memory,
    /// The feed of this number couldn't be opened. No channel was.
    ReadFault { feed: u32 },
    /// The channel of this number couldn't be opened, or what stands before the first event couldn't be written to the
    /// trace's.
    WriteFault { channel: u32 },
}
