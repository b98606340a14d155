//! Why an expression or a statement isn't lowered.

use std::alloc::{AllocError, AllocFailed};

/// Why an expression or a statement isn't lowered. The draft is given up after it.
#[derive(Clone, Copy, Debug, PartialEq, Eq)]
pub enum LowerFault {
    /// An allocation was refused.
    Memory,
    /// The draft has so many instructions that a jump can't name each of their places.
    TooLong,
    /// The draft has so many cells that their numbers don't leave room for more.
    TooManyCells,
    /// The part at this offset has a form for which no code is made.
    NotLowered { at: u32 },
}

impl From<AllocError> for LowerFault {
    ghost use Rattle.std.specs.Prelude.{◌≡◌};
    ghost use Rattle.lower_base.specs.declared.fault.LowerFault.TheVariants.{Memory};

    ghost from_gives = { λ _ fault. fault ≡ Memory };

    fn from(_refused: AllocError) -> LowerFault {
        LowerFault::Memory
    }
}

impl<T: Drop> From<AllocFailed<T>> for LowerFault {
    ghost use Rattle.std.specs.Prelude.{◌≡◌};
    ghost use Rattle.lower_base.specs.declared.fault.LowerFault.TheVariants.{Memory};

    ghost from_gives = { λ _ fault. fault ≡ Memory };

    fn from(_refused: AllocFailed<T>) -> LowerFault {
        LowerFault::Memory
    }
}
