//! Statuses of replays.

ghost use Rattle.std.specs.Prelude.{◌≡◌};
ghost use Rattle.cmd_replay.specs.Steps.{status_of, status_of_fault};

use crate::outcome::NotReplayed;
use cmd_report::{ReadAt, Status};
use trace_replay::{ReplayFault, Replayed};

/// The status of a trace that wasn't replayed.
fn status_of_fault(fault: ReplayFault) -> Status
    ensures { result ≡ status_of_fault fault }
{
    match fault {
        ReplayFault::NotRun { line, why } => Status::NotRun { line, why },
        ReplayFault::ReadFault { feed } => Status::ReadFault(ReadAt::Feed(feed)),
        ReplayFault::Memory => Status::OutOfMemory,
    }
}

/// The status of what came of a replay.
pub(crate) fn status_of(came: &Result<Replayed, NotReplayed>) -> Status
    ensures { result ≡ status_of came.now }
{
    match came {
        Ok(_) => Status::Done,
        Err(NotReplayed::Refused(refusal)) => Status::Refused(*refusal),
        Err(NotReplayed::Fault(fault)) => status_of_fault(*fault),
    }
}
