//! Names, and the reserved words that are none.

ghost use Rattle.std.specs.Prelude.{◌≡◌, is_some, option_map};
ghost use Rattle.std.specs.List.{list_all};
ghost use Rattle.cal_lexer.specs.Words.{lexeme_of};
ghost use Rattle.cal_lexer.specs.Lexis.{goes_on_name, is_name, reserved};

use crate::bytes::{begins_name, byte_at, goes_on_name};
use crate::word::{Word, long_end, plain_word};

/// The most bytes that a name may have.
pub const MAX_NAME: usize = 255;

/// Whether a text is a name of the language: a letter or `_` followed by letters, digits and `_`, and no reserved
/// word.
#[tactic(auto, unfolding(crate::specs::Lexis::is_name))]
pub fn is_name(text: &str) -> bool
    ensures { result ≡ is_name text.now }
{
    begins_name(byte_at(text.as_bytes(), 0)) && all_go_on(text) && !is_reserved(text)
}

/// Whether a text is letters, digits and `_`.
fn all_go_on(text: &str) -> bool
    ensures { result ≡ list_all goes_on_name text.now }
{
    text.as_bytes().iter().all(|byte| goes_on_name(*byte))
}

fn is_reserved(text: &str) -> bool
    ensures { result ≡ is_some (reserved text.now) }
{
    reserved(text).is_some()
}

/// The reserved word that a text is, if it is one.
pub(crate) fn reserved(text: &str) -> Option<Word>
    ensures { option_map lexeme_of result ≡ reserved text.now }
{
    match plain_word(text) {
        Some(word) => Some(word),
        None => long_end(text),
    }
}
