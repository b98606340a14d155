//! What a text begins with.

ghost use Rattle.std.specs.Prelude.{◌≡◌, ◌<◌, length, IfOk, true, false, ◌==◌, slice_index};
ghost use Rattle.cal_lexer.specs.Lexis.{front, begins_name, is_blank, is_foreign};
ghost use Rattle.cal_lexer.specs.Lexis as lexis;
ghost use Rattle.cal_lexer.specs.Pieces.{IsPiece};

use crate::bytes::{
    begins_name, byte_at, is_blank, is_foreign, is_slash_and, line_len, name_len, until_close,
};
use crate::number::number;
use crate::symbols::{Symbol, longest_symbol};
use crate::token::TokenKind;
use crate::words::{MAX_NAME, reserved};
use rvc_base::{Memory, Rule};
use std::alloc::Global;
use std::str;

/// What stands at the front of a text.
#[derive(Drop)]
pub(crate) enum Piece {
    /// A blank or a comment of so many bytes.
    Gap(usize),
    /// A token of so many bytes.
    Token(TokenKind, usize),
    /// A fault.
    Fault(Rule),
}

/// What stands at the front of a text.
pub(crate) fn next_piece(alloc: Global, text: &[u8]) -> Result<Piece, Memory>
    requires { 0 < length text.now }
    ensures { IfOk result (IsPiece text.now) }
{
    let first = byte_at(text, 0);
    let second = byte_at(text, 1);
    if is_blank(first) {
        return Ok(Piece::Gap(1));
    }
    let line = is_slash_and(b'/', first, second);
    if line {
        return Ok(Piece::Gap(line_len(text)));
    }
    let block = is_slash_and(b'*', first, second);
    if block {
        return Ok(comment(text));
    }
    if first == b'"' {
        return Ok(Piece::Fault(Rule::STRING_LITERAL));
    }
    let foreign = is_foreign(first, second);
    if foreign {
        return Ok(Piece::Fault(Rule::FOREIGN_BYTE));
    }
    token(alloc, text)
}

/// A comment that begins with `/*`.
fn comment(text: &[u8]) -> Piece
    requires slash { slice_index text.now 0 ≡ 47 }
    requires star { slice_index text.now 1 ≡ 42 }
    ensures { IsPiece text.now result }
{
    let inside = until_close(&text[2..]);
    if inside < text.len() - 2 {
        Piece::Gap(inside + 4)
    } else {
        Piece::Fault(Rule::OPEN_COMMENT)
    }
}

/// A token, or the fault that it has.
fn token(alloc: Global, text: &[u8]) -> Result<Piece, Memory>
    requires begins { front text.now ≡ lexis.Token }
    requires known { is_foreign (slice_index text.now 0) (slice_index text.now 1) ≡ false }
    requires dark { is_blank (slice_index text.now 0) ≡ false }
    requires bare { (slice_index text.now 0 == 34) ≡ false }
    ensures { IfOk result (IsPiece text.now) }
{
    let first = byte_at(text, 0);
    if begins_name(first) {
        return word(alloc, text);
    }
    if first.is_ascii_digit() {
        return Ok(number(text));
    }
    match longest_symbol(text) {
        Some(Symbol { word, size }) => Ok(Piece::Token(word.kind(), size)),
        None => unreachable!(),
    }
}

/// A reserved word or a name.
fn word(alloc: Global, text: &[u8]) -> Result<Piece, Memory>
    requires begins { front text.now ≡ lexis.Token }
    requires named { begins_name (slice_index text.now 0) ≡ true }
    ensures { IfOk result (IsPiece text.now) }
{
    let size = name_len(text);
    let Ok(name) = str::from_utf8(&text[..size]) else {
        unreachable!()
    };
    if let Some(word) = reserved(name) {
        return Ok(Piece::Token(word.kind(), size));
    }
    if size > MAX_NAME {
        return Ok(Piece::Fault(Rule::NAME_TOO_LONG));
    }
    Ok(Piece::Token(TokenKind::Name(String::from_str(alloc, name)?), size))
}
