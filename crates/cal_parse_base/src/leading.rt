//! The first token of what has a height: a room of 0 has no place for it.

ghost use Rattle.std.specs.Prelude.{◌≡◌, true};
ghost use Rattle.cal_parse_base.specs.Cursor.{stands};
ghost use Rattle.cal_parse_base.specs.Leading.{LedByName, LedByWord};
ghost use Rattle.cal_grammar.specs.Rules.{starts_expr as starts};
ghost use Rattle.cal_grammar.specs.Token.{names, same_word};
ghost use Rattle.cal_lexer.specs.Words.{lexeme_of};

use crate::cursor::{name, take_word};
use crate::fault::Fault;
use cal_ast::Ident;
use cal_lexer::{Token, TokenKind, Word};
use std::alloc::Global;

/// Takes the name at the front, which begins a part.
pub fn leading_name(alloc: Global, tokens: &mut &[Token], room: u32) -> Result<Ident, Fault>
    requires { stands names tokens.old.now ≡ true }
    ensures { LedByName room result tokens.old.now tokens.new.now }
{
    if room == 0 {
        return Err(Fault::TooHigh);
    }
    name(alloc, tokens)
}

/// Takes the word at the front, which begins a part, and says where it stands.
pub fn leading_word(tokens: &mut &[Token], room: u32, word: Word) -> Result<u32, Fault>
    requires { stands (same_word (lexeme_of word)) tokens.old.now ≡ true }
    ensures { LedByWord room (lexeme_of word) result tokens.old.now tokens.new.now }
{
    if room == 0 {
        return Err(Fault::TooHigh);
    }
    Ok(take_word(tokens, word))
}

/// Whether the token at the front begins an expression.
pub fn starts_expr(tokens: &[Token]) -> bool
    ensures { result ≡ stands starts tokens.now }
{
    match tokens.first() {
        None => false,
        Some(token) => match &token.kind {
            TokenKind::Name(_) | TokenKind::Number(_) => true,
            TokenKind::True | TokenKind::False => true,
            TokenKind::If | TokenKind::LeftParen | TokenKind::LeftBracket => true,
            TokenKind::Not | TokenKind::Minus | TokenKind::Tilde => true,
            _ => false,
        },
    }
}
