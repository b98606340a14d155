//! The width of numbers: every bound that follows from it, by name.

/// A number of the language: signed, in two's complement.
///
/// Its least and its greatest number are `Num::MIN` and `Num::MAX`.
pub type Num = i128;

/// The low bits of a number, without a sign.
pub(crate) type Bits = u128;

/// A number of half the width, in which arithmetic is faster.
pub(crate) type Half = i64;

/// The greatest `size` of the types `int` and `uint`, in bits.
pub const MAX_SIZE: u8 = 64;

/// The `size` of the types `int` and `uint` if none is written, in bits.
pub const DEFAULT_SIZE: u8 = 32;

/// The greatest count of a shift.
pub const MAX_SHIFT: u8 = 127;

/// The most bytes that one token takes in a port file.
pub const MAX_TOKEN_BYTES: usize = 8;
