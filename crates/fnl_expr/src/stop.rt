//! Why a reader of elements stops.

ghost use Rattle.std.specs.Prelude.{◌≡◌};
ghost use Rattle.rvc_base.specs.Rules.{nests_too_deep, spells_no_network, unknown_element, wrong_attribute};
ghost use Rattle.fnl_expr.specs.declared.stop.Stop.{Stop};
ghost use Rattle.fnl_expr.specs.declared.stop.Stop.TheVariants as stops;

use rvc_base::Rule;
use std::alloc::{AllocError, AllocFailed};

/// Why a reader of elements stops.
#[derive(Clone, Copy)]
pub enum Stop {
    /// A rule is broken, at this offset.
    Broken(Rule, u32),
    /// An allocation was refused.
    Memory,
}

/// No text goes on with the byte at this offset.
pub fn stuck(at: u32) -> Stop
    ensures { result ≡ stops.Broken spells_no_network at }
{
    Stop::Broken(Rule::SPELLS_NO_NETWORK, at)
}

impl From<AllocError> for Stop {
    ghost use Rattle.std.specs.Prelude.{◌≡◌};
    ghost use Rattle.fnl_expr.specs.declared.stop.Stop.TheVariants.{Memory};

    ghost from_gives = { λ _ stop. stop ≡ Memory };

    fn from(_refused: AllocError) -> Stop {
        Stop::Memory
    }
}

impl<T: Drop> From<AllocFailed<T>> for Stop {
    ghost use Rattle.std.specs.Prelude.{◌≡◌};
    ghost use Rattle.fnl_expr.specs.declared.stop.Stop.TheVariants.{Memory};

    ghost from_gives = { λ _ stop. stop ≡ Memory };

    fn from(_refused: AllocFailed<T>) -> Stop {
        Stop::Memory
    }
}

/// An attribute of the element at this offset is missing, given twice or not one of its values.
pub fn wrong(at: u32) -> Stop
    ensures { result ≡ stops.Broken wrong_attribute at }
{
    Stop::Broken(Rule::WRONG_ATTRIBUTE, at)
}

/// The element at this offset is unknown in its place.
pub fn unknown(at: u32) -> Stop
    ensures { result ≡ stops.Broken unknown_element at }
{
    Stop::Broken(Rule::UNKNOWN_ELEMENT, at)
}

/// The element at this offset nests too deep, or is an expression that is too high.
pub fn too_deep(at: u32) -> Stop
    ensures { result ≡ stops.Broken nests_too_deep at }
{
    Stop::Broken(Rule::NESTS_TOO_DEEP, at)
}
