//! Comparisons, and the other truth value. A truth value is the number 0 or 1.

ghost use Rattle.std.specs.Prelude.{◌≡◌, not};
ghost use Rattle.rvc_base.specs.Arithmetic.{Gives, truth, is_equal, is_below, is_true};
ghost use Rattle.rvc_base.specs.Computing.{computed_of};

use rvc_base::{Num, Trap};

/// Whether the number is 0.
#[inline]
pub(crate) fn not(a: Num) -> Result<Num, Trap>
    ensures { computed_of result ≡ Gives (truth (not (is_true a))) }
{
    if a == 0 { Ok(1) } else { Ok(0) }
}

#[inline]
pub(crate) fn eq(a: Num, b: Num) -> Result<Num, Trap>
    ensures { computed_of result ≡ Gives (truth (is_equal a b)) }
{
    if a == b { Ok(1) } else { Ok(0) }
}

#[inline]
pub(crate) fn ne(a: Num, b: Num) -> Result<Num, Trap>
    ensures { computed_of result ≡ Gives (truth (not (is_equal a b))) }
{
    if a == b { Ok(0) } else { Ok(1) }
}

#[inline]
pub(crate) fn lt(a: Num, b: Num) -> Result<Num, Trap>
    ensures { computed_of result ≡ Gives (truth (is_below a b)) }
{
    if a < b { Ok(1) } else { Ok(0) }
}

#[inline]
pub(crate) fn le(a: Num, b: Num) -> Result<Num, Trap>
    ensures { computed_of result ≡ Gives (truth (not (is_below b a))) }
{
    if b < a { Ok(0) } else { Ok(1) }
}

#[inline]
pub(crate) fn gt(a: Num, b: Num) -> Result<Num, Trap>
    ensures { computed_of result ≡ Gives (truth (is_below b a)) }
{
    if b < a { Ok(1) } else { Ok(0) }
}

#[inline]
pub(crate) fn ge(a: Num, b: Num) -> Result<Num, Trap>
    ensures { computed_of result ≡ Gives (truth (not (is_below a b))) }
{
    if a < b { Ok(0) } else { Ok(1) }
}
