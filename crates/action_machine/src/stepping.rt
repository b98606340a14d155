//! Offsets in steps of several numbers.

ghost use Rattle.std.specs.Prelude.{◌≡◌, ◌*◌, ◌+ℤ◌, pos};
ghost use Rattle.rvc_base.specs.Arithmetic.{whole};
ghost use Rattle.rvc_base.specs.Computing.{computed_of};

use rvc_base::{Num, Trap, arithmetic};

/// The offset after `k` elements of `m` numbers each.
#[inline]
pub(crate) fn stepped(o: Num, k: u32, m: u32) -> Result<Num, Trap>
    ensures { computed_of result ≡ whole (o +ℤ pos (k * m)) }
{
    arithmetic::add(o, Num::from(u64::from(k) * u64::from(m)))
}
