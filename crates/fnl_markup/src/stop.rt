//! Why a reader of markup stops.

ghost use Rattle.std.specs.Prelude.{◌≡◌};
ghost use Rattle.rvc_base.specs.Rules.{spells_no_network};
ghost use Rattle.fnl_markup.specs.declared.stop.Stop.{Stop};
ghost use Rattle.fnl_markup.specs.declared.stop.Stop.TheVariants as stops;

use rvc_base::Rule;
use std::alloc::{AllocError, AllocFailed};

/// Why a reader of markup stops.
#[derive(Clone, Copy)]
pub(crate) enum Stop {
    /// A rule is broken, at this offset.
    Broken(Rule, u32),
    /// An allocation was refused.
    Memory,
}

/// No text goes on with the byte at this offset.
pub(crate) fn stuck(at: u32) -> Stop
    ensures { result ≡ stops.Broken spells_no_network at }
{
    Stop::Broken(Rule::SPELLS_NO_NETWORK, at)
}

impl From<AllocError> for Stop {
    ghost use Rattle.std.specs.Prelude.{◌≡◌};
    ghost use Rattle.fnl_markup.specs.declared.stop.Stop.TheVariants.{Memory};

    ghost from_gives = { λ _ stop. stop ≡ Memory };

    fn from(_refused: AllocError) -> Stop {
        Stop::Memory
    }
}

impl<T: Drop> From<AllocFailed<T>> for Stop {
    ghost use Rattle.std.specs.Prelude.{◌≡◌};
    ghost use Rattle.fnl_markup.specs.declared.stop.Stop.TheVariants.{Memory};

    ghost from_gives = { λ _ stop. stop ≡ Memory };

    fn from(_refused: AllocFailed<T>) -> Stop {
        Stop::Memory
    }
}
