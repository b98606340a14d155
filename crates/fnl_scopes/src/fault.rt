//! Why a network can't stand where it does.

use rvc_base::{Memory, Rule};
use std::alloc::{AllocError, AllocFailed};

/// Why a network can't stand where it does.
#[derive(Clone, Copy, Debug, PartialEq, Eq)]
pub enum ScopeFault {
    /// It breaks a rule of scope.
    Broken {
        rule: Rule,
        /// The offset of the part that breaks it.
        at: u32,
    },
    /// An allocation was refused.
    Memory,
}

impl From<AllocError> for ScopeFault {
    ghost use Rattle.std.specs.Prelude.{◌≡◌};
    ghost use Rattle.fnl_scopes.specs.declared.fault.ScopeFault.TheVariants.{Memory};

    ghost from_gives = { λ _ fault. fault ≡ Memory };

    fn from(_refused: AllocError) -> ScopeFault {
        ScopeFault::Memory
    }
}

impl<T: Drop> From<AllocFailed<T>> for ScopeFault {
    ghost use Rattle.std.specs.Prelude.{◌≡◌};
    ghost use Rattle.fnl_scopes.specs.declared.fault.ScopeFault.TheVariants.{Memory};

    ghost from_gives = { λ _ fault. fault ≡ Memory };

    fn from(_refused: AllocFailed<T>) -> ScopeFault {
        ScopeFault::Memory
    }
}

impl From<Memory> for ScopeFault {
    ghost use Rattle.std.specs.Prelude.{◌≡◌};
    ghost use Rattle.fnl_scopes.specs.declared.fault.ScopeFault.TheVariants.{Memory};

    ghost from_gives = { λ _ fault. fault ≡ Memory };

    fn from(_refused: Memory) -> ScopeFault {
        ScopeFault::Memory
    }
}
