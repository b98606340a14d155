//! Why an actor isn't certified.

use rvc_base::ActId;
use std::alloc::AllocError;

/// Why an actor isn't certified.
#[derive(Clone, Copy, Debug, PartialEq, Eq)]
pub enum CertFault {
    /// In this schedule state the rule fails for actions `a` and `b`, or for the guards of the action that both name.
    Uncertified {
        state: u16,
        a: ActId,
        b: ActId,
        reason: Reason,
    },
    /// Out of memory.
    Memory,
}

/// What the rule asks for and doesn't find.
#[derive(Clone, Copy, Debug, PartialEq, Eq)]
pub enum Reason {
    /// One action is above the other but needs more tokens than it on some port, and no two conjuncts of their
    /// guards exclude each other.
    C1,
    /// Neither action is above the other, and no two conjuncts of their guards exclude each other.
    C2,
    /// A guard holds a call or a comprehension.
    C3,
    /// A guard may trap, judged by the types and constants that it names.
    C4,
}

impl From<AllocError> for CertFault {
    ghost use Rattle.std.specs.Prelude.{◌≡◌};
    ghost use Rattle.determinacy_cert.specs.declared.fault.CertFault.TheVariants.{Memory};

    ghost from_gives = { λ _ fault. fault ≡ Memory };

    fn from(_refused: AllocError) -> CertFault {
        CertFault::Memory
    }
}
