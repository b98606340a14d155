//! Where the parser stands: the tokens that are left.

ghost use Rattle.std.specs.Prelude.{◌≡◌, ◌<◌, true, false, length, MatchResult, string_bytes, IsTrue};
ghost use Rattle.cal_lexer.specs.Lexeme.{Name, lexeme};
ghost use Rattle.cal_parse_base.specs.Cursor.{Finished, Took, TookName, TookWord, stands};
ghost use Rattle.cal_grammar.specs.Operators.{ends};
ghost use Rattle.cal_grammar.specs.Token.{counts, names, same_word};
ghost use Rattle.cal_lexer.specs.Words.{lexeme_of};

use crate::ends::long_end;
use crate::fault::Fault;
use cal_ast::Ident;
use cal_lexer::{Token, TokenKind, Word};
use std::alloc::Global;

/// Whether this word is at the front.
pub fn is_word(tokens: &[Token], word: Word) -> bool
    ensures { result ≡ stands (same_word (lexeme_of word)) tokens.now }
{
    match tokens.first() {
        None => false,
        Some(token) => is_same(&token.kind, word),
    }
}

/// Whether a token is this word.
fn is_same(kind: &TokenKind, word: Word) -> bool
    ensures { result ≡ same_word (lexeme_of word) (lexeme kind.now) }
{
    match kind.word() {
        None => false,
        Some(found) => found.number() == word.number(),
    }
}

/// Whether a name is at the front.
pub fn is_name(tokens: &[Token]) -> bool
    ensures { result ≡ stands names tokens.now }
{
    match tokens.first() {
        None => false,
        Some(token) => match &token.kind {
            TokenKind::Name(_) => true,
            _ => false,
        },
    }
}

/// Whether a number is at the front.
pub fn is_number(tokens: &[Token]) -> bool
    ensures { result ≡ stands counts tokens.now }
{
    match tokens.first() {
        None => false,
        Some(token) => match &token.kind {
            TokenKind::Number(_) => true,
            _ => false,
        },
    }
}

/// Takes the word at the front, and says where it stands.
pub fn take_word(tokens: &mut &[Token], word: Word) -> u32
    requires { stands (same_word (lexeme_of word)) tokens.old.now ≡ true }
    ensures { Took (lexeme_of word) result tokens.old.now tokens.new.now }
{
    let all = *tokens;
    let Some((token, rest)) = all.split_first() else {
        unreachable!()
    };
    *tokens = rest;
    token.at
}

/// Takes this word, which must be at the front, and says where it stands.
pub fn expect(tokens: &mut &[Token], word: Word) -> Result<u32, Fault>
    ensures { TookWord (lexeme_of word) result tokens.old.now tokens.new.now }
{
    if is_word(tokens, word) {
        Ok(take_word(tokens, word))
    } else {
        Err(Fault::Refused)
    }
}

/// Takes a name, which must be at the front.
pub fn name(alloc: Global, tokens: &mut &[Token]) -> Result<Ident, Fault>
    ensures { TookName result tokens.old.now tokens.new.now }
{
    let all = *tokens;
    let Some((token, rest)) = all.split_first() else {
        return Err(Fault::Refused)
    };
    let TokenKind::Name(text) = &token.kind else {
        return Err(Fault::Refused)
    };
    let text = text.clone()?;
    *tokens = rest;
    Ok(Ident { text, at: token.at })
}

/// Takes the end of what begins with this word, and says whether it is there: `end`, or its long end.
pub fn finish(tokens: &mut &[Token], opener: Word) -> bool
    ensures { Finished (lexeme_of opener) result tokens.old.now tokens.new.now }
{
    let long = long_end(opener);
    if is_word(tokens, Word::End) {
        take_word(tokens, Word::End);
        return true;
    }
    if is_word(tokens, long) {
        take_word(tokens, long);
        return true;
    }
    false
}
