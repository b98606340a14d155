//! Why an actor isn't lowered.

use lower_base::LowerFault;
use rvc_base::Memory;
use std::alloc::{AllocError, AllocFailed};

/// Why an actor isn't lowered. Of a sound actor no part is left out, so memory is all that may be lacking for one.
#[derive(Clone, Copy, Debug, PartialEq, Eq)]
pub enum ActorFault {
    /// Memory ran out: an allocation was refused, or the code has so many instructions or cells that 32 bits don't count
    /// them, which would take 60 gigabytes or more.
    Memory,
    /// No code is made for the form of the part at this offset.
    NotLowered { at: u32 },
}

impl From<LowerFault> for ActorFault {
    ghost use Rattle.std.specs.Prelude.{◌≡◌};
    ghost use Rattle.lower_actor.specs.Faults.{actor_fault};

    ghost from_gives = { λ fault mine. mine ≡ actor_fault fault };

    fn from(fault: LowerFault) -> ActorFault {
        match fault {
            LowerFault::Memory => ActorFault::Memory,
            LowerFault::TooLong => ActorFault::Memory,
            LowerFault::TooManyCells => ActorFault::Memory,
            LowerFault::NotLowered { at } => ActorFault::NotLowered { at },
        }
    }
}

impl From<Memory> for ActorFault {
    ghost use Rattle.std.specs.Prelude.{◌≡◌};
    ghost use Rattle.lower_actor.specs.declared.fault.ActorFault.TheVariants as mine;

    ghost from_gives = { λ _ fault. fault ≡ mine.Memory };

    fn from(_refused: Memory) -> ActorFault {
        ActorFault::Memory
    }
}

impl From<AllocError> for ActorFault {
    ghost use Rattle.std.specs.Prelude.{◌≡◌};
    ghost use Rattle.lower_actor.specs.declared.fault.ActorFault.TheVariants as mine;

    ghost from_gives = { λ _ fault. fault ≡ mine.Memory };

    fn from(_refused: AllocError) -> ActorFault {
        ActorFault::Memory
    }
}

impl<T: Drop> From<AllocFailed<T>> for ActorFault {
    ghost use Rattle.std.specs.Prelude.{◌≡◌};
    ghost use Rattle.lower_actor.specs.declared.fault.ActorFault.TheVariants as mine;

    ghost from_gives = { λ _ fault. fault ≡ mine.Memory };

    fn from(_refused: AllocFailed<T>) -> ActorFault {
        ActorFault::Memory
    }
}
