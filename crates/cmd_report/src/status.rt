//! How a command ended.

ghost use Rattle.std.specs.Prelude.{◌≡◌};
ghost use Rattle.cmd_report.specs.Status.{came_to_its_end, code_of};

use determinacy_cert::Reason;
use rvc_base::{ActId, InstId, LinkId, Refusal, Trap};
use rvc_words::UsageCause;
use trace_replay::Why;

/// What couldn't be read: a file or a feed, by its number.
#[derive(Clone, Copy, Debug, PartialEq, Eq)]
pub enum ReadAt {
    File(u32),
    Feed(u32),
}

/// How a command ended.
#[derive(Clone, Copy, Debug, PartialEq, Eq)]
pub enum Status {
    /// The run is quiet: nothing is left to do.
    Quiet,
    /// A verb that runs nothing did its work.
    Done,
    /// The words aren't a job.
    Usage(UsageCause),
    /// A file or a feed couldn't be read.
    ReadFault(ReadAt),
    /// A channel couldn't be written.
    WriteFault {
        channel: u32,
    },
    /// A rule is broken at a place.
    Refused(Refusal),
    /// A firing trapped.
    Trapped {
        inst: InstId,
        action: ActId,
        trap: Trap,
    },
    /// Each instance waits or lacks room, and this is the lowest that lacks it, on this link.
    Stalled {
        inst: InstId,
        action: ActId,
        link: LinkId,
    },
    /// The run made all the firings of its budget, and there is more to do.
    Budget {
        firings: u64,
    },
    /// Out of memory, before the run began.
    OutOfMemory,
    /// A trace isn't one of a run: this is the first line that no run has.
    NotRun {
        line: u64,
        why: Why,
    },
    /// An instance isn't certified: in this state, these two actions are the first that fail the rule.
    Uncertified {
        inst: InstId,
        state: u16,
        a: ActId,
        b: ActId,
        reason: Reason,
    },
}

impl Status {
    /// The exit status of the program.
    pub fn code(&self) -> u8
        ensures { result ≡ code_of self.now }
    {
        match self {
            Status::Quiet | Status::Done => 0,
            Status::Usage(_) => 1,
            Status::ReadFault(_) => 2,
            Status::WriteFault { channel: _ } => 3,
            Status::Refused(_) => 4,
            Status::Trapped {
                inst: _,
                action: _,
                trap: _,
            } => 5,
            Status::Stalled {
                inst: _,
                action: _,
                link: _,
            } => 6,
            Status::Budget { firings: _ } => 7,
            Status::OutOfMemory => 8,
            Status::NotRun { line: _, why: _ } => 9,
            Status::Uncertified {
                inst: _,
                state: _,
                a: _,
                b: _,
                reason: _,
            } => 10,
        }
    }

    /// Whether the command came to its end, so that its report has all lines of its verb.
    pub(crate) fn came_to_its_end(&self) -> bool
        ensures { result ≡ came_to_its_end self.now }
    {
        match self {
            Status::Quiet
            | Status::Done
            | Status::Trapped {
                inst: _,
                action: _,
                trap: _,
            }
            | Status::Stalled {
                inst: _,
                action: _,
                link: _,
            }
            | Status::Budget { firings: _ }
            | Status::Uncertified {
                inst: _,
                state: _,
                a: _,
                b: _,
                reason: _,
            } => true,
            Status::Usage(_)
            | Status::ReadFault(_)
            | Status::WriteFault { channel: _ }
            | Status::Refused(_)
            | Status::OutOfMemory
            | Status::NotRun { line: _, why: _ } => false,
        }
    }
}
