//! Operations on the bits of numbers, in two's complement.

ghost use Rattle.std.specs.Prelude.{◌≡◌};
ghost use Rattle.rvc_base.specs.Arithmetic.{Gives, bit_and, bit_or, bit_xor, bit_not};
ghost use Rattle.rvc_base.specs.Computing.{computed_of};

use rvc_base::{Num, Trap};

/// The bits that both numbers have.
#[inline]
pub(crate) fn bit_and(a: Num, b: Num) -> Result<Num, Trap>
    ensures { computed_of result ≡ Gives (bit_and a b) }
{
    Ok(a & b)
}

/// The bits that one of the numbers has, or both.
#[inline]
pub(crate) fn bit_or(a: Num, b: Num) -> Result<Num, Trap>
    ensures { computed_of result ≡ Gives (bit_or a b) }
{
    Ok(a | b)
}

/// The bits that one of the numbers has, and not both.
#[inline]
pub(crate) fn bit_xor(a: Num, b: Num) -> Result<Num, Trap>
    ensures { computed_of result ≡ Gives (bit_xor a b) }
{
    Ok(a ^ b)
}

/// The bits that the number doesn't have.
#[inline]
pub(crate) fn bit_not(a: Num) -> Result<Num, Trap>
    ensures { computed_of result ≡ Gives (bit_not a) }
{
    Ok(!a)
}
