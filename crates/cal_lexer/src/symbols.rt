//! The symbols.

ghost use Rattle.std.specs.Prelude.{◌≡◌, ◌∷◌, [], option_map, take, MatchOption, None};
ghost use Rattle.cal_lexer.specs.Words.{lexeme_of};
ghost use Rattle.cal_lexer.specs.Lexis.{find, symbols_of_one, symbols_of_two, symbols_of_three};
ghost use Rattle.cal_lexer.specs.Pieces.{IsLongestSymbol};

use crate::word::Word;

/// A symbol at the front of a text.
#[derive(Drop)]
pub(crate) struct Symbol {
    pub(crate) word: Word,
    /// How many bytes it has.
    pub(crate) size: usize,
}

/// The longest symbol that a text begins with.
pub(crate) fn longest_symbol(text: &[u8]) -> Option<Symbol>
    ensures { MatchOption result ((find (take 1 text.now) symbols_of_one ≡ None)
        × (find (take 2 text.now) symbols_of_two ≡ None))
        (λ s. IsLongestSymbol text.now s.size (lexeme_of s.word)) }
{
    if let Some(word) = symbol_of_three(text) {
        return Some(Symbol { word, size: 3 });
    }
    if let Some(word) = symbol_of_two(text) {
        return Some(Symbol { word, size: 2 });
    }
    match symbol_of_one(text) {
        Some(word) => Some(Symbol { word, size: 1 }),
        None => None,
    }
}

fn symbol_of_three(text: &[u8]) -> Option<Word>
    ensures { option_map lexeme_of result ≡ find (take 3 text.now) symbols_of_three }
{
    if text.len() < 3 {
        return None;
    }
    three_bytes(text[0], text[1], text[2])
}

fn symbol_of_two(text: &[u8]) -> Option<Word>
    ensures { option_map lexeme_of result ≡ find (take 2 text.now) symbols_of_two }
{
    if text.len() < 2 {
        return None;
    }
    two_bytes(text[0], text[1])
}

fn symbol_of_one(text: &[u8]) -> Option<Word>
    ensures { option_map lexeme_of result ≡ find (take 1 text.now) symbols_of_one }
{
    if text.is_empty() {
        return None;
    }
    one_byte(text[0])
}

fn three_bytes(a: u8, b: u8, c: u8) -> Option<Word>
    ensures { option_map lexeme_of result ≡ find (a ∷ b ∷ c ∷ []) symbols_of_three }
{
    match (a, b, c) {
        (b'=', b'=', b'>') => Some(Word::LongDoubleArrow),
        (b'-', b'-', b'>') => Some(Word::LongArrow),
        _ => None,
    }
}

fn two_bytes(a: u8, b: u8) -> Option<Word>
    ensures { option_map lexeme_of result ≡ find (a ∷ b ∷ []) symbols_of_two }
{
    match (a, b) {
        (b':', b'=') => Some(Word::Assign),
        (b'.', b'.') => Some(Word::DotDot),
        (b'<', b'=') => Some(Word::LessEqual),
        (b'>', b'=') => Some(Word::GreaterEqual),
        (b'!', b'=') => Some(Word::NotEqual),
        (b'<', b'<') => Some(Word::ShiftLeft),
        (b'>', b'>') => Some(Word::ShiftRight),
        (b'&', b'&') => Some(Word::AndAnd),
        (b'|', b'|') => Some(Word::OrOr),
        _ => None,
    }
}

/// The symbol of one byte.
pub(crate) fn one_byte(a: u8) -> Option<Word>
    ensures { option_map lexeme_of result ≡ find (a ∷ []) symbols_of_one }
{
    match a {
        b'(' => Some(Word::LeftParen),
        b')' => Some(Word::RightParen),
        b'[' => Some(Word::LeftBracket),
        b']' => Some(Word::RightBracket),
        b',' => Some(Word::Comma),
        b';' => Some(Word::Semicolon),
        b':' => Some(Word::Colon),
        b'.' => Some(Word::Dot),
        b'+' => Some(Word::Plus),
        b'-' => Some(Word::Minus),
        b'*' => Some(Word::Star),
        b'/' => Some(Word::Slash),
        b'=' => Some(Word::Equal),
        b'<' => Some(Word::Less),
        b'>' => Some(Word::Greater),
        b'&' => Some(Word::Ampersand),
        b'|' => Some(Word::Bar),
        b'^' => Some(Word::Caret),
        b'~' => Some(Word::Tilde),
        _ => None,
    }
}
