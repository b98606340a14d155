//! Statuses, from how runs end and from what kept them from going.

ghost use Rattle.std.specs.Prelude.{◌≡◌};
ghost use Rattle.cmd_run.specs.Steps.{status_at, status_of, status_of_fault};

use cmd_report::{ReadAt, Status};
use cmd_run_network::{JobFault, Outcome};
use round_runner::RunEnd;

/// The status of a run's end, after so many firings.
fn status_at(end: RunEnd, firings: u64) -> Status
    ensures { result ≡ status_at end firings }
{
    match end {
        RunEnd::Quiet => Status::Quiet,
        RunEnd::Trapped { inst, action, trap } => Status::Trapped { inst, action, trap },
        RunEnd::Stalled { inst, action, link } => Status::Stalled { inst, action, link },
        RunEnd::Budget => Status::Budget { firings },
        RunEnd::ReadFault { feed } => Status::ReadFault(ReadAt::Feed(feed)),
        RunEnd::WriteFault { channel } => Status::WriteFault { channel },
    }
}

/// The status of what kept rounds from going.
fn status_of_fault(fault: JobFault) -> Status
    ensures { result ≡ status_of_fault fault }
{
    match fault {
        JobFault::Refused(refusal) => Status::Refused(refusal),
        JobFault::Memory => Status::OutOfMemory,
        JobFault::ReadFault { feed } => Status::ReadFault(ReadAt::Feed(feed)),
        JobFault::WriteFault { channel } => Status::WriteFault { channel },
    }
}

/// The status of what a run came to.
pub(crate) fn status_of(came: &Result<Outcome, JobFault>) -> Status
    ensures { result ≡ status_of came.now }
{
    match came {
        Ok(outcome) => status_at(outcome.end, outcome.counts.firings),
        Err(fault) => status_of_fault(*fault),
    }
}
