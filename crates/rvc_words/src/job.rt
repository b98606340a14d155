//! What the words ask for.

use rvc_base::RoundKind;

/// The number of workers if the words name none.
pub const DEFAULT_WORKERS: u64 = 1;

/// The greatest number of workers.
pub const MAX_WORKERS: u64 = 64;

/// The burst if the words name none, in firings of an instance.
pub const DEFAULT_BURST: u64 = 64;

/// The greatest burst, in firings of an instance.
pub const MAX_BURST: u64 = 65_536;

/// The budget if the words name none, in firings.
pub const DEFAULT_BUDGET: u64 = 100_000_000;

/// The greatest limit to which links grow, in tokens.
pub const MAX_GROW: u64 = 1_048_576;

/// The greatest number of a generated network.
pub const MAX_GENERATED: u64 = 1_000;

/// What is to be done, with which files, and how.
#[derive(Drop)]
pub struct Job {
    pub verb: Verb,
    /// The file of the top; for [`Verb::Gen`] a number in decimal digits.
    pub top: String,
    /// The port words, as they stand.
    pub ports: Vec<PortWord>,
    /// The file of the trace; empty if none is named.
    pub trace: String,
    /// How many workers there are.
    pub workers: u32,
    /// Which instances a round picks.
    pub round: RoundKind,
    /// The most firings of an instance in one round.
    pub burst: u32,
    /// The most firings of the run.
    pub budget: u64,
    /// The capacity up to which links grow at a stall, in tokens; 0 if none grows.
    pub grow: u32,
}

/// A port and the file that it is read from or written to.
#[derive(Drop)]
pub struct PortWord {
    pub name: String,
    pub file: String,
}

/// What is done with the top.
#[derive(Clone, Copy, Debug, PartialEq, Eq)]
pub enum Verb {
    /// It is run.
    Run,
    /// It is checked.
    Check,
    /// It is certified to be determinate.
    Certify,
    /// A trace of it is replayed.
    Replay,
    /// Its text is printed in canonical form.
    Fmt,
    /// A network is generated, and run.
    Gen,
}
