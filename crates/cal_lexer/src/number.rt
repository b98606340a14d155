//! Numbers.

ghost use Rattle.std.specs.Prelude.{◌≡◌, ◌==◌, ◌&&◌, ◌≤◌, ◌+◌, ◌*◌, ◌^◌, ◌<◌, length, true, slice_index, MatchOption};
ghost use Rattle.std.specs.Char.{is_ascii_digit, is_ascii_hexdigit};
ghost use Rattle.cal_lexer.specs.Lexis.{front, digit_value, value_of, runs_on, has_leading_zero};
ghost use Rattle.cal_lexer.specs.Lexis as lexis;
ghost use Rattle.cal_lexer.specs.Pieces.{IsNumber, IsPiece, IsTooBig};

use crate::bytes::{begins_name, byte_at, digits_len, hex_len};
use crate::piece::Piece;
use crate::token::TokenKind;
use rvc_base::Rule;

/// The number that a text begins with.
pub(crate) fn number(text: &[u8]) -> Piece
    requires begins { front text.now ≡ lexis.Token }
    requires digit { is_ascii_digit (slice_index text.now 0) ≡ true }
    ensures { IsPiece text.now result }
{
    let hex = is_hex_mark(byte_at(text, 0), byte_at(text, 1), byte_at(text, 2));
    if hex {
        hexadecimal(text)
    } else {
        let size = digits_len(text);
        numeral(text, size, value(&text[..size], 10))
    }
}

/// Whether these are `0`, `x` and a hexadecimal digit.
fn is_hex_mark(first: u8, second: u8, third: u8) -> bool
    ensures { result ≡ ((first == 48) && ((second == 120) && is_ascii_hexdigit third)) }
{
    first == b'0' && (second == b'x' && third.is_ascii_hexdigit())
}

/// A number of this many bytes: its token, or its first fault.
fn numeral(text: &[u8], size: usize, value: Option<u128>) -> Piece
    requires within { size ≤ length text.now }
    requires read { MatchOption value (IsTooBig text.now size) (IsNumber text.now size) }
    ensures { IsPiece text.now result }
{
    match value {
        None => Piece::Fault(Rule::NUMBER_TOO_BIG),
        Some(value) => {
            if runs_on(&text[size..]) {
                Piece::Fault(Rule::NUMBER_RUNS_ON)
            } else if has_leading_zero(&text[..size]) {
                Piece::Fault(Rule::LEADING_ZERO)
            } else {
                Piece::Token(TokenKind::Number(value), size)
            }
        }
    }
}

/// Whether a number that is followed by these bytes runs on.
fn runs_on(rest: &[u8]) -> bool
    ensures { result ≡ runs_on rest.now }
{
    begins_name(byte_at(rest, 0)) || (byte_at(rest, 0) == b'.' && byte_at(rest, 1).is_ascii_digit())
}

/// Whether a number has several decimal digits of which the first is 0.
fn has_leading_zero(text: &[u8]) -> bool
    ensures { result ≡ has_leading_zero text.now }
{
    byte_at(text, 0) == b'0' && (text.len() > 1 && digits_len(text) == text.len())
}

/// The number that digits stand for, unless it needs more than 128 bits.
fn value(digits: &[u8], base: u128) -> Option<u128>
    requires { 1 ≤ base }
    ensures { MatchOption result (2 ^ 128 ≤ value_of base digits.now)
        (λ v. (v ≡ value_of base digits.now) × (v < 2 ^ 128)) }
{
    let mut value: u128 = 0;
    for b in digits {
        value = with_digit(value, base, *b)?;
    }
    Some(value)
}

/// The number with one more digit, unless it needs more than 128 bits.
fn with_digit(value: u128, base: u128, digit: u8) -> Option<u128>
    ensures { MatchOption result (2 ^ 128 ≤ value * base + digit_value digit)
        (λ v. (v ≡ value * base + digit_value digit) × (v < 2 ^ 128)) }
{
    value.checked_mul(base)?.checked_add(digit_value(digit))
}

/// The value of a digit in a base up to 16, in either case.
fn digit_value(b: u8) -> u128
    ensures { result ≡ digit_value b }
{
    if b.is_ascii_digit() {
        u128::from(b - b'0')
    } else if b >= b'a' {
        u128::from(b - (b'a' - 10))
    } else {
        u128::from(b.saturating_sub(b'A' - 10))
    }
}

/// `0x` and the hexadecimal digits behind it.
fn hexadecimal(text: &[u8]) -> Piece
    requires begins { front text.now ≡ lexis.Token }
    requires zero { slice_index text.now 0 ≡ 48 }
    requires mark { slice_index text.now 1 ≡ 120 }
    requires digit { is_ascii_hexdigit (slice_index text.now 2) ≡ true }
    ensures { IsPiece text.now result }
{
    let size = hex_len(&text[2..]) + 2;
    numeral(text, size, value(&text[2..size], 16))
}
