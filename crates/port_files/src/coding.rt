//! One token and its bytes.

ghost use Rattle.std.specs.Prelude.{◌≡◌, ◌≤◌, ◌<◌, ◌+◌, ◌*◌, ◌^◌, ◌++◌, length, drop, pos};
ghost use Rattle.rvc_base.specs.Storing.{IsSize, conv, low_part};
ghost use Rattle.rvc_base.specs.Width.{max_token_bytes};
ghost use Rattle.net_model.specs.PortFile.{byte_bits, bytes_for, token_bytes, little_endian, to_little_endian, token_of, encoded};

use rvc_base::{MAX_TOKEN_BYTES, Num, Scalar, conv};

/// How many bytes hold a token of this type.
pub(crate) fn token_bytes(kind: Scalar) -> usize
    requires { IsSize kind }
    ensures bytes { result ≡ token_bytes kind }
    ensures some { 1 ≤ result }
    ensures most { result ≤ max_token_bytes }
{
    match kind {
        Scalar::Bool => 1,
        Scalar::Int(size) => bytes_for(size),
        Scalar::Uint(size) => bytes_for(size),
    }
}

/// How many bytes hold a number of this many bits.
fn bytes_for(bits: u8) -> usize
    ensures bytes { result ≡ bytes_for bits }
    ensures some { 1 ≤ result }
    ensures most { result ≤ max_token_bytes }
{
    if bits <= 8 {
        1
    } else if bits <= 16 {
        2
    } else if bits <= 32 {
        4
    } else {
        MAX_TOKEN_BYTES
    }
}

/// The token in a piece of so many bytes as a token has.
pub(crate) fn decode(kind: Scalar, piece: &[u8]) -> Num
    requires size { IsSize kind }
    requires short { length piece.now ≤ max_token_bytes }
    ensures { result ≡ token_of kind piece.now }
{
    conv(kind, Num::from(little_endian(piece)))
}

/// The number that bytes stand for, the lowest first.
fn little_endian(bytes: &[u8]) -> u64
    requires { length bytes.now ≤ max_token_bytes }
    ensures value { result ≡ little_endian bytes.now }
    ensures fits { result < 256 ^ max_token_bytes }
{
    let mut number = 0u64;
    for done in 0..bytes.len() {
        number = u64::from(bytes[bytes.len() - 1 - done]) + 256 * number;
    }
    number
}

/// Writes the bytes of one token to the front of `out`, and says how many.
///
/// What is written is `v` as a port of this type holds it: in two's complement over all its bytes,
/// the lowest first.
pub fn encode(kind: Scalar, v: Num, out: &mut [u8; MAX_TOKEN_BYTES]) -> u8
    requires { IsSize kind }
    ensures count { result ≡ token_bytes kind }
    ensures bytes { out.new ≡ encoded kind (conv kind v) ++ drop result out.old }
{
    let count = token_bytes(kind);
    let number = low_bytes(conv(kind, v), count);
    write_little_endian(number, &mut out[..count]);
    count as u8
}

/// The lowest bytes of a number in two's complement, as many as `count`, as one number.
fn low_bytes(v: Num, count: usize) -> u64
    requires some { 1 ≤ count }
    requires most { count ≤ max_token_bytes }
    ensures { result ≡ low_part (byte_bits * count) v }
{
    conv(Scalar::Uint(8 * count as u8), v) as u64
}

/// Fills `out` with the bytes of a number, the lowest first.
fn write_little_endian(number: u64, out: &mut [u8])
    ensures { out.new ≡ to_little_endian (length out.old) number }
{
    let mut rest = number;
    for k in 0..out.len() {
        out[k] = (rest % 256) as u8;
        rest /= 256;
    }
}
