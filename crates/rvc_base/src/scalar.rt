//! The types of single values, and what storing makes of a number.

ghost use Rattle.std.specs.Prelude.{◌≡◌, ◌≤◌};
ghost use Rattle.rvc_base.specs.Storing.{IsSize, conv, low_part};
ghost use Rattle.rvc_base.specs.Width.{max_size};

use crate::width::{Bits, Num};

/// The type of a single value: `bool`, `int(size=n)` or `uint(size=n)`.
///
/// A truth value is held as the number 0 or 1.
#[derive(Clone, Copy, Debug, PartialEq, Eq)]
pub enum Scalar {
    Bool,
    /// Signed, of this many bits: from 1 to [`crate::MAX_SIZE`].
    Int(u8),
    /// Unsigned, of this many bits: from 1 to [`crate::MAX_SIZE`].
    Uint(u8),
}

/// What a variable, a port or a parameter of type `t` holds once `v` is stored in it.
///
/// For a number type that is the number of its range that equals `v` modulo 2 to the power of its
/// size; for `bool` it is 0 for 0 and else 1.
pub fn conv(t: Scalar, v: Num) -> Num
    requires { IsSize t }
    ensures { result ≡ conv t v }
{
    match t {
        Scalar::Bool => { if v == 0 { 0 } else { 1 } }
        Scalar::Int(size) => signed_part(v, size),
        Scalar::Uint(size) => unsigned_part(v, size),
    }
}

/// The low bits of `v` in two's complement, as many as `size`.
fn low_bits(v: Num, size: u8) -> Bits
    requires small { size ≤ max_size }
    ensures { result ≡ low_part size v }
{
    v.cast_unsigned() & ((1 << size) - 1)
}

/// What an unsigned type of this size holds of `v`.
fn unsigned_part(v: Num, size: u8) -> Num
    requires { IsSize (Scalar.Uint size) }
    ensures { result ≡ conv (Scalar.Uint size) v }
{
    low_bits(v, size).cast_signed()
}

/// What a signed type of this size holds of `v`.
fn signed_part(v: Num, size: u8) -> Num
    requires { IsSize (Scalar.Int size) }
    ensures { result ≡ conv (Scalar.Int size) v }
{
    let low = low_bits(v, size);
    if low < 1 << (size - 1) {
        low.cast_signed()
    } else {
        low.cast_signed() - (1 << size)
    }
}
