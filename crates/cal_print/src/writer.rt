//! The text so far.

ghost use Rattle.std.specs.Prelude.{◌≡◌, ◌++◌, ◌∷◌, [], Some, List, ℕ, IfOk};
ghost use Rattle.cal_lexer.specs.Lexeme.{Lexeme};
ghost use Rattle.cal_lexer.specs.Words.{lexeme_of, spelling};
ghost use Rattle.cal_print.specs.Spelling.{gap_behind};
ghost use Rattle.cal_print.specs.Writes.{Writes};

use cal_lexer::Word;
use itoa::Buffer;
use rvc_base::Memory;
use std::alloc::Global;
use std::marker::Model;

/// A text that grows by tokens. Once memory ran out it grows no more, so a caller need not ask behind each token.
/// Contracts see its bytes, or none once memory ran out.
#[derive(Drop)]
pub struct Writer {
    text: Vec<u8>,
    ran_out: bool,
}

impl Model for Writer {
    ghost use Rattle.std.specs.Prelude.{ℕ, List, Option};
    ghost use Rattle.cal_print.specs.Writes.{text_unless};

    ghost Value = { Option (List ℕ) };

    ghost view = { λ w. text_unless w.ran_out w.text.items };
}

impl Writer {
    /// An empty text.
    pub fn new(alloc: Global) -> Writer
        ensures { result ≡ Some [] }
    {
        Writer {
            text: Vec::new(alloc),
            ran_out: false,
        }
    }

    /// The bytes of the text.
    ///
    /// # Errors
    ///
    /// `Memory` if memory ran out.
    pub fn into_bytes(self) -> Result<Vec<u8>, Memory>
        ensures { IfOk result (λ text. self ≡ Some text.items) }
    {
        if self.ran_out {
            return Err(Memory);
        }
        Ok(self.text)
    }

    /// Puts a word behind the text.
    pub fn put(&mut self, word: Word)
        ensures { Writes self.old (lexeme_of word ∷ []) self.new }
    {
        self.put_token(word.text(), gap_behind(word));
    }

    /// Puts a name behind the text.
    pub fn put_name(&mut self, name: &str)
        ensures { Writes self.old (Lexeme.Name name.now ∷ []) self.new }
    {
        self.put_token(name, b' ');
    }

    /// Puts a number behind the text, in decimal.
    pub(crate) fn put_number(&mut self, value: u128)
        ensures { Writes self.old (Lexeme.Number value ∷ []) self.new }
    {
        let mut buffer = Buffer::new();
        self.put_token(buffer.format(value), b' ');
    }

    /// Puts a token behind the text, by its spelling and by what stands behind it.
    fn put_token(&mut self, spelled: &str, gap: u8)
        ensures { (w : Lexeme) → spelling w ≡ spelled.now → gap_behind w ≡ gap
            → Writes self.old (w ∷ []) self.new }
    {
        if !self.ran_out {
            self.ran_out = append(&mut self.text, spelled.as_bytes(), gap).is_err();
        }
    }
}

/// Appends bytes and one more.
fn append(text: &mut Vec<u8>, bytes: &[u8], last: u8) -> Result<(), Memory>
    ensures { IfOk result (λ _. text.new.items ≡ text.old.items ++ (bytes.now ++ (last ∷ []))) }
{
    text.extend_from_slice(bytes)?;
    text.push(last)?;
    Ok(())
}

/// What stands behind a word: LF behind `;` and `end`, else a space.
fn gap_behind(word: Word) -> u8
    ensures { result ≡ gap_behind (lexeme_of word) }
{
    match word {
        Word::Semicolon | Word::End => b'\n',
        _ => b' ',
    }
}
