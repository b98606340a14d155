//! Why a part of a source can't be resolved.

use rvc_base::{Memory, Rule};
use std::alloc::{AllocError, AllocFailed};

/// Why a part of a source can't be resolved.
#[derive(Clone, Copy, Debug, PartialEq, Eq)]
pub enum ScopeFault {
    /// It breaks a rule of scope.
    Broken {
        rule: Rule,
        /// The offset of the name or the declaration that breaks it.
        at: u32,
    },
    /// An allocation was refused.
    Memory,
}

impl From<AllocError> for ScopeFault {
    ghost use Rattle.std.specs.Prelude.{◌≡◌};
    ghost use Rattle.cal_scope.specs.declared.fault.ScopeFault.TheVariants.{Memory};

    ghost from_gives = { λ _ fault. fault ≡ Memory };

    fn from(_refused: AllocError) -> ScopeFault {
        ScopeFault::Memory
    }
}

impl<T: Drop> From<AllocFailed<T>> for ScopeFault {
    ghost use Rattle.std.specs.Prelude.{◌≡◌};
    ghost use Rattle.cal_scope.specs.declared.fault.ScopeFault.TheVariants.{Memory};

    ghost from_gives = { λ _ fault. fault ≡ Memory };

    fn from(_refused: AllocFailed<T>) -> ScopeFault {
        ScopeFault::Memory
    }
}

impl From<Memory> for ScopeFault {
    ghost use Rattle.std.specs.Prelude.{◌≡◌};
    ghost use Rattle.cal_scope.specs.declared.fault.ScopeFault.TheVariants.{Memory};

    ghost from_gives = { λ _ fault. fault ≡ Memory };

    fn from(_refused: Memory) -> ScopeFault {
        ScopeFault::Memory
    }
}
