//! Expressions and types that a part of a text's tokens spells.

use crate::reading::fault;
use crate::writer::text_of;
use cal_lexer::{Token, lex};
use cal_parser::{parse_expr, parse_type};
use rvc_base::Memory;
use std::alloc::Global;

/// What is asked of tokens.
#[derive(Clone, Copy)]
pub enum Alone {
    Expression,
    Type,
}

/// What the tokens of a text from one number up to another, without the latter, spell, or the rule that they break and
/// the place.
///
/// # Errors
///
/// `Memory` if memory runs out.
pub fn told_alone(
    alloc: Global,
    asked: Alone,
    text: &[u8],
    from: u32,
    to: u32,
) -> Result<String, Memory> {
    if text.len() >= 1 << 32 {
        return Ok(String::from_str(alloc, "too long")?);
    }
    match lex(alloc, 7, text) {
        Ok(tokens) => read_alone(alloc, asked, &tokens, from, to, text.len() as u32),
        Err(why) => Ok(fault(alloc, why)?),
    }
}

/// What these tokens spell, as text.
fn read_alone(
    alloc: Global,
    asked: Alone,
    tokens: &[Token],
    from: u32,
    to: u32,
    end: u32,
) -> Result<String, Memory> {
    if from > to || to as usize > tokens.len() {
        return Ok(String::from_str(alloc, "no such tokens")?);
    }
    match asked {
        Alone::Expression => match parse_expr(alloc, 7, tokens, from, to, end) {
            Ok(found) => text_of(alloc, &found),
            Err(why) => Ok(fault(alloc, why)?),
        },
        Alone::Type => match parse_type(alloc, 7, tokens, from, to, end) {
            Ok(found) => text_of(alloc, &found),
            Err(why) => Ok(fault(alloc, why)?),
        },
    }
}
