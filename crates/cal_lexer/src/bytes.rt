//! Classes of bytes, and the runs of bytes that a text begins with.

ghost use Rattle.std.specs.Prelude.{◌≡◌, ◌&&◌, ◌==◌, slice_index};
ghost use Rattle.std.specs.Char.{is_ascii_digit, is_ascii_hexdigit};
ghost use Rattle.cal_lexer.specs.Lexis.{is_blank, begins_name, goes_on_name, in_alphabet, is_foreign, before, at_line_end, at_close};
ghost use Rattle.cal_lexer.specs.Pieces.{IsRun};

use crate::symbols::one_byte;

/// The byte at a place, or 0 past the end.
pub(crate) fn byte_at(text: &[u8], k: usize) -> u8
    ensures { result ≡ slice_index text.now k }
{
    if k < text.len() { text[k] } else { 0 }
}

/// Space, tab, CR, LF or form feed.
pub(crate) fn is_blank(b: u8) -> bool
    ensures { result ≡ is_blank b }
{
    b == b' ' || (b == b'\t' || (b == b'\r' || (b == b'\n' || b == 12)))
}

/// A letter or `_`.
pub(crate) fn begins_name(b: u8) -> bool
    ensures { result ≡ begins_name b }
{
    b.is_ascii_alphabetic() || b == b'_'
}

/// A letter, `_` or a digit.
pub(crate) fn goes_on_name(b: u8) -> bool
    ensures { result ≡ goes_on_name b }
{
    begins_name(b) || b.is_ascii_digit()
}

/// A byte that the lexis has outside comments.
fn in_alphabet(b: u8) -> bool
    ensures { result ≡ in_alphabet b }
{
    is_blank(b) || (goes_on_name(b) || (b == b'"' || (b == b'!' || one_byte(b).is_some())))
}

/// Whether nothing of the lexis begins with these two bytes.
pub(crate) fn is_foreign(first: u8, second: u8) -> bool
    ensures { result ≡ is_foreign first second }
{
    !in_alphabet(first) || (first == b'!' && second != b'=')
}

/// Whether these two bytes are `/` and the mark.
pub(crate) fn is_slash_and(mark: u8, first: u8, second: u8) -> bool
    ensures { result ≡ ((first == 47) && (second == mark)) }
{
    first == b'/' && second == mark
}

/// How many bytes of a name or a reserved word the text begins with.
pub(crate) fn name_len(text: &[u8]) -> usize
    ensures { IsRun goes_on_name text.now result }
{
    for (i, b) in text.iter().enumerate() {
        if !goes_on_name(*b) {
            return i;
        }
    }
    text.len()
}

/// How many decimal digits the text begins with.
pub(crate) fn digits_len(text: &[u8]) -> usize
    ensures { IsRun is_ascii_digit text.now result }
{
    for (i, b) in text.iter().enumerate() {
        if !b.is_ascii_digit() {
            return i;
        }
    }
    text.len()
}

/// How many hexadecimal digits the text begins with.
pub(crate) fn hex_len(text: &[u8]) -> usize
    ensures { IsRun is_ascii_hexdigit text.now result }
{
    for (i, b) in text.iter().enumerate() {
        if !b.is_ascii_hexdigit() {
            return i;
        }
    }
    text.len()
}

/// How many bytes stand before the first LF, or before the end.
pub(crate) fn line_len(text: &[u8]) -> usize
    ensures { result ≡ before at_line_end text.now }
{
    for (i, b) in text.iter().enumerate() {
        if *b == b'\n' {
            return i;
        }
    }
    text.len()
}

/// How many bytes stand before the first `*/`, or before the end.
pub(crate) fn until_close(text: &[u8]) -> usize
    ensures { result ≡ before at_close text.now }
{
    for (i, b) in text.iter().enumerate() {
        if *b == b'*' && byte_at(text, i + 1) == b'/' {
            return i;
        }
    }
    text.len()
}
