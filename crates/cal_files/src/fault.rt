//! Why files can't be loaded.

ghost use Rattle.std.specs.Prelude.{◌≡◌};
ghost use Rattle.cal_files.specs.Reads.{refusal_at};
ghost use Rattle.cal_files.specs.SoFar.{of_front};

use rvc_base::{Front, Memory, Place, Refusal, Rule};
use std::alloc::{AllocError, AllocFailed};
use thiserror::Error;

/// Why files can't be loaded.
#[derive(Clone, Copy, Debug, PartialEq, Eq, Error)]
pub enum LoadFault {
    /// A rule is broken.
    #[error("a rule is broken")]
    Refused(Refusal),
    /// The reading of the file of this number failed.
    #[error("a file can't be read")]
    ReadFault { file: u32 },
    /// An allocation was refused.
    #[error("out of memory")]
    Memory,
}

impl From<AllocError> for LoadFault {
    ghost use Rattle.std.specs.Prelude.{◌≡◌};
    ghost use Rattle.cal_files.specs.declared.fault.LoadFault.TheVariants.{Memory};

    ghost from_gives = { λ _ fault. fault ≡ Memory };

    fn from(_refused: AllocError) -> LoadFault {
        LoadFault::Memory
    }
}

impl<T: Drop> From<AllocFailed<T>> for LoadFault {
    ghost use Rattle.std.specs.Prelude.{◌≡◌};
    ghost use Rattle.cal_files.specs.declared.fault.LoadFault.TheVariants.{Memory};

    ghost from_gives = { λ _ fault. fault ≡ Memory };

    fn from(_refused: AllocFailed<T>) -> LoadFault {
        LoadFault::Memory
    }
}

impl From<Memory> for LoadFault {
    ghost use Rattle.std.specs.Prelude.{◌≡◌};
    ghost use Rattle.cal_files.specs.declared.fault.LoadFault.TheVariants.{Memory};

    ghost from_gives = { λ _ fault. fault ≡ Memory };

    fn from(_refused: Memory) -> LoadFault {
        LoadFault::Memory
    }
}

/// The fault of a reader of one file.
pub fn of_front(front: Front) -> LoadFault
    ensures { result ≡ of_front front }
{
    match front {
        Front::Refused(refusal) => LoadFault::Refused(refusal),
        Front::Memory => LoadFault::Memory,
    }
}

/// A rule is broken, in a file at a place.
pub fn refused(rule: Rule, file: u32, offset: u32) -> LoadFault
    ensures { result ≡ LoadFault.Refused (refusal_at rule file offset) }
{
    LoadFault::Refused(Refusal {
        rule,
        place: Place { file, offset },
    })
}
