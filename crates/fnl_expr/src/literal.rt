//! Literals.

ghost use Rattle.std.specs.Prelude.{◌≡◌, ◌<◌, ◌≤◌, ◌+◌, ◌*◌, ◌^◌, ◌==◌, MatchOption, length, map, option_map, slice_index, true};
ghost use Rattle.std.specs.List.{list_all};
ghost use Rattle.std.specs.Char.{is_ascii_digit};
ghost use Rattle.cal_lexer.specs.Lexis.{digit_value, value_of};
ghost use Rattle.fnl_markup.specs.Tags.{plain_attribute};
ghost use Rattle.fnl_expr.specs.Given as meant;
ghost use Rattle.fnl_expr.specs.Literals.{literal_of};

use crate::attributes::{either_given, given};
use fnl_markup::Attribute;

/// A literal.
#[derive(Clone, Copy)]
pub enum Literal {
    Number { negative: bool, value: u128 },
    Truth(bool),
}

/// The literal that attributes give.
pub fn literal_given(attributes: &[Attribute]) -> Option<Literal>
    ensures { option_map literal_of result
        ≡ meant.literal_given (map plain_attribute attributes.now) }
{
    if either_given(attributes, "literal-kind", "Integer", "Boolean")? {
        return integer(&given(attributes, "value")?.value);
    }
    let value = either_given(attributes, "value", "true", "false")?;
    Some(Literal::Truth(value))
}

/// Digits, and a `-` before them or none.
fn integer(text: &[u8]) -> Option<Literal>
    ensures { option_map literal_of result ≡ meant.integer text.now }
{
    let negative = begins_negative(text);
    let value = if negative {
        digits(&text[1..])?
    } else {
        digits(text)?
    };
    Some(Literal::Number { negative, value })
}

fn begins_negative(text: &[u8]) -> bool
    ensures is { result ≡ (slice_index text.now 0 == 45) }
    ensures some { result ≡ true → 0 < length text.now }
{
    !text.is_empty() && text[0] == b'-'
}

/// The number of digits, if it needs at most 128 bits.
fn digits(text: &[u8]) -> Option<u128>
    ensures { result ≡ meant.digits text.now }
{
    if text.is_empty() || !are_digits(text) {
        return None;
    }
    value(text)
}

fn are_digits(text: &[u8]) -> bool
    ensures { result ≡ list_all is_ascii_digit text.now }
{
    text.iter().all(|byte| byte.is_ascii_digit())
}

/// The number that digits stand for, unless it needs more than 128 bits.
fn value(digits: &[u8]) -> Option<u128>
    ensures { MatchOption result (2 ^ 128 ≤ value_of 10 digits.now)
        (λ v. (v ≡ value_of 10 digits.now) × (v < 2 ^ 128)) }
{
    let mut value: u128 = 0;
    for b in digits {
        value = with_digit(value, *b)?;
    }
    Some(value)
}

/// The number with one more digit, unless it needs more than 128 bits.
fn with_digit(value: u128, digit: u8) -> Option<u128>
    ensures { MatchOption result (2 ^ 128 ≤ value * 10 + digit_value digit)
        (λ v. (v ≡ value * 10 + digit_value digit) × (v < 2 ^ 128)) }
{
    value.checked_mul(10)?.checked_add(digit_value(digit))
}

/// The value of a digit; of other bytes as in numbers to the base 16.
fn digit_value(b: u8) -> u128
    ensures { result ≡ digit_value b }
{
    if b.is_ascii_digit() {
        u128::from(b - b'0')
    } else if b >= b'a' {
        u128::from(b - (b'a' - 10))
    } else {
        u128::from(b.saturating_sub(b'A' - 10))
    }
}
