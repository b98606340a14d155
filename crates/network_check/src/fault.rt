//! Why nothing is given that can be run.

ghost use Rattle.std.specs.Prelude.{◌≡◌};
ghost use Rattle.network_check.specs.Steps.{of_front, of_load};

use cal_files::LoadFault;
use rvc_base::{Front, Refusal};
use thiserror::Error;

/// Why nothing is given that can be run.
#[derive(Clone, Copy, Debug, PartialEq, Eq, Error)]
pub enum BuildFault {
    /// A rule is broken.
    #[error("a rule is broken")]
    Refused(Refusal),
    /// The reading of the file of this number failed.
    #[error("a file can't be read")]
    ReadFault { file: u32 },
    /// An allocation was refused.
    #[error("out of memory")]
    Memory,
}

/// The fault of a loading, as that of a top.
pub fn of_load(fault: LoadFault) -> BuildFault
    ensures { result ≡ of_load fault }
{
    match fault {
        LoadFault::Refused(refusal) => BuildFault::Refused(refusal),
        LoadFault::ReadFault { file } => BuildFault::ReadFault { file },
        LoadFault::Memory => BuildFault::Memory,
    }
}

/// The fault of a check, as that of a top.
pub fn of_front(front: Front) -> BuildFault
    ensures { result ≡ of_front front }
{
    match front {
        Front::Refused(refusal) => BuildFault::Refused(refusal),
        Front::Memory => BuildFault::Memory,
    }
}
