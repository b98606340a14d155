//! Why an expression has no kind.

use rvc_base::{Memory, Rule};
use std::alloc::{AllocError, AllocFailed};

/// Why an expression has no kind.
#[derive(Clone, Copy, Debug, PartialEq, Eq)]
pub enum KindFault {
    /// It breaks a rule.
    Broken {
        rule: Rule,
        /// The offset of the expression, the type or the name that breaks it.
        at: u32,
    },
    /// An allocation was refused, or a constant is a list of more items than a kind can say.
    Memory,
}

impl From<AllocError> for KindFault {
    ghost use Rattle.std.specs.Prelude.{◌≡◌};
    ghost use Rattle.const_env.specs.declared.fault.KindFault.TheVariants.{Memory};

    ghost from_gives = { λ _ fault. fault ≡ Memory };

    fn from(_refused: AllocError) -> KindFault {
        KindFault::Memory
    }
}

impl<T: Drop> From<AllocFailed<T>> for KindFault {
    ghost use Rattle.std.specs.Prelude.{◌≡◌};
    ghost use Rattle.const_env.specs.declared.fault.KindFault.TheVariants.{Memory};

    ghost from_gives = { λ _ fault. fault ≡ Memory };

    fn from(_refused: AllocFailed<T>) -> KindFault {
        KindFault::Memory
    }
}

impl From<Memory> for KindFault {
    ghost use Rattle.std.specs.Prelude.{◌≡◌};
    ghost use Rattle.const_env.specs.declared.fault.KindFault.TheVariants.{Memory};

    ghost from_gives = { λ _ fault. fault ≡ Memory };

    fn from(_refused: Memory) -> KindFault {
        KindFault::Memory
    }
}
