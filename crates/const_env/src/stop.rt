//! Why an evaluation ends without a value.

use rvc_base::{Memory, Trap};
use std::alloc::{AllocError, AllocFailed};

/// Why an evaluation ends without a value.
#[derive(Clone, Copy, Debug, PartialEq, Eq)]
pub enum EvalError {
    Trap(Trap),
    /// A name is reached that means nothing.
    Lacks,
    /// A part is of another kind than its form asks.
    Clashes,
    /// An allocation was refused.
    Memory,
}

impl From<AllocError> for EvalError {
    ghost use Rattle.std.specs.Prelude.{◌≡◌};
    ghost use Rattle.const_env.specs.declared.stop.EvalError.TheVariants.{Memory};

    ghost from_gives = { λ _ stop. stop ≡ Memory };

    fn from(_refused: AllocError) -> EvalError {
        EvalError::Memory
    }
}

impl<T: Drop> From<AllocFailed<T>> for EvalError {
    ghost use Rattle.std.specs.Prelude.{◌≡◌};
    ghost use Rattle.const_env.specs.declared.stop.EvalError.TheVariants.{Memory};

    ghost from_gives = { λ _ stop. stop ≡ Memory };

    fn from(_refused: AllocFailed<T>) -> EvalError {
        EvalError::Memory
    }
}

impl From<Memory> for EvalError {
    ghost use Rattle.std.specs.Prelude.{◌≡◌};
    ghost use Rattle.const_env.specs.declared.stop.EvalError.TheVariants.{Memory};

    ghost from_gives = { λ _ stop. stop ≡ Memory };

    fn from(_refused: Memory) -> EvalError {
        EvalError::Memory
    }
}
