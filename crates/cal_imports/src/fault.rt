//! Why files can't be resolved.

ghost use Rattle.std.specs.Prelude.{◌≡◌};

use rvc_base::{Memory, Rule};
use std::alloc::{AllocError, AllocFailed};

/// Why files can't be resolved.
#[derive(Clone, Copy, Debug, PartialEq, Eq)]
pub(crate) enum ImportFault {
    /// A rule of scope is broken.
    Refused {
        rule: Rule,
        /// The number of the file in which it is broken.
        file: u32,
        /// The offset there.
        at: u32,
    },
    /// An allocation was refused.
    Memory,
}

impl From<AllocError> for ImportFault {
    ghost use Rattle.std.specs.Prelude.{◌≡◌};
    ghost use Rattle.cal_imports.specs.declared.fault.ImportFault.TheVariants.{Memory};

    ghost from_gives = { λ _ fault. fault ≡ Memory };

    fn from(_refused: AllocError) -> ImportFault {
        ImportFault::Memory
    }
}

impl<T: Drop> From<AllocFailed<T>> for ImportFault {
    ghost use Rattle.std.specs.Prelude.{◌≡◌};
    ghost use Rattle.cal_imports.specs.declared.fault.ImportFault.TheVariants.{Memory};

    ghost from_gives = { λ _ fault. fault ≡ Memory };

    fn from(_refused: AllocFailed<T>) -> ImportFault {
        ImportFault::Memory
    }
}

impl From<Memory> for ImportFault {
    ghost use Rattle.std.specs.Prelude.{◌≡◌};
    ghost use Rattle.cal_imports.specs.declared.fault.ImportFault.TheVariants.{Memory};

    ghost from_gives = { λ _ fault. fault ≡ Memory };

    fn from(_refused: Memory) -> ImportFault {
        ImportFault::Memory
    }
}

/// A rule is broken, in a file at a place.
pub(crate) fn refused(rule: Rule, file: u32, at: u32) -> ImportFault
    ensures { result ≡ ImportFault.Refused rule file at }
{
    ImportFault::Refused { rule, file, at }
}
