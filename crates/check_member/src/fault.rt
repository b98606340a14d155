//! Why a part of an actor is refused.

use rvc_base::{Memory, Rule};
use std::alloc::{AllocError, AllocFailed};

/// Why a part of an actor is refused.
#[derive(Clone, Copy, Debug, PartialEq, Eq)]
pub enum MemberFault {
    /// It breaks a rule.
    Broken {
        rule: Rule,
        /// The offset at which it does.
        at: u32,
    },
    /// An allocation was refused.
    Memory,
}

impl From<AllocError> for MemberFault {
    ghost use Rattle.std.specs.Prelude.{◌≡◌};
    ghost use Rattle.check_member.specs.declared.fault.MemberFault.TheVariants.{Memory};

    ghost from_gives = { λ _ fault. fault ≡ Memory };

    fn from(_refused: AllocError) -> MemberFault {
        MemberFault::Memory
    }
}

impl<T: Drop> From<AllocFailed<T>> for MemberFault {
    ghost use Rattle.std.specs.Prelude.{◌≡◌};
    ghost use Rattle.check_member.specs.declared.fault.MemberFault.TheVariants.{Memory};

    ghost from_gives = { λ _ fault. fault ≡ Memory };

    fn from(_refused: AllocFailed<T>) -> MemberFault {
        MemberFault::Memory
    }
}

impl From<Memory> for MemberFault {
    ghost use Rattle.std.specs.Prelude.{◌≡◌};
    ghost use Rattle.check_member.specs.declared.fault.MemberFault.TheVariants.{Memory};

    ghost from_gives = { λ _ fault. fault ≡ Memory };

    fn from(_refused: Memory) -> MemberFault {
        MemberFault::Memory
    }
}

impl MemberFault {
    ghost use Rattle.std.specs.Prelude.{◌≡◌};

    /// A rule that is broken at an offset.
    pub(crate) fn broken(rule: Rule, at: u32) -> MemberFault
        ensures { result ≡ MemberFault.Broken rule at }
    {
        MemberFault::Broken { rule, at }
    }
}
