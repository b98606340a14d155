//! Statuses of commands that came to no network, and of reports that couldn't be put.

ghost use Rattle.std.specs.Prelude.{◌≡◌};
ghost use Rattle.cmd_network.specs.Steps.{answered, status_of_build};

use cmd_report::{REPORT_CHANNEL, ReadAt, Status};
use network_check::BuildFault;
use rvc_io::Failed;

/// The status of a network that isn't given.
pub fn status_of_build(fault: BuildFault) -> Status
    ensures { result ≡ status_of_build fault }
{
    match fault {
        BuildFault::Refused(refusal) => Status::Refused(refusal),
        BuildFault::ReadFault { file } => Status::ReadFault(ReadAt::File(file)),
        BuildFault::Memory => Status::OutOfMemory,
    }
}

/// This status if the report was put, and else the write fault of channel 0.
pub fn answered(said: Status, put: Result<(), Failed>) -> Status
    ensures { result ≡ answered said put }
{
    match put {
        Ok(()) => said,
        Err(Failed) => Status::WriteFault {
            channel: REPORT_CHANNEL,
        },
    }
}
