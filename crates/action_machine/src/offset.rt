//! Offsets into ranges.

ghost use Rattle.std.specs.Prelude.{◌≡◌, ◌+◌, ◌≤◌, ℕ, IfSome};
ghost use Rattle.code_ir.specs.Effect.{Effect, with_offset};
ghost use Rattle.action_machine.specs.Offset.{at_offset};

use rvc_base::Num;

/// The offset as a place, if at least `m` of the `n` elements stand from it on.
#[inline]
pub(crate) fn offset(o: Num, m: u32, n: u32) -> Option<u32>
    ensures effect { (next : ℕ → Effect) → with_offset o m n next ≡ at_offset result next }
    ensures inside { IfSome result (λ k. k + m ≤ n) }
{
    if o < 0 {
        return None;
    }
    if o > Num::from(n) - Num::from(m) {
        return None;
    }
    Some(o as u32)
}
