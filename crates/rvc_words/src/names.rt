//! Names of the language, and files that are named by them.

ghost use Rattle.std.specs.Prelude.{◌≡◌, ◌<◌};
ghost use Rattle.rvc_words.specs.Forms.{front_of, is_file, is_path, rest_of};

use cal_lexer::is_name;

/// A text, cut at the first of a mark.
#[derive(Clone, Copy)]
pub struct Halves<'a> {
    /// What stands before the mark, or all.
    pub front: &'a str,
    /// What stands behind it, or nothing.
    pub rest: &'a str,
}

/// Cuts a text at the first of a mark.
pub fn cut(text: &str, mark: char) -> Halves<'_>
    requires { mark < 128 }
    ensures front { result.front.now ≡ front_of mark text.now }
    ensures rest { result.rest.now ≡ rest_of mark text.now }
{
    match text.split_once(mark) {
        Some((front, rest)) => Halves { front, rest },
        None => Halves {
            front: text,
            rest: "",
        },
    }
}

/// Whether a text is names joined by `/`, a dot, and an ending.
#[tactic(auto, unfolding(crate::specs::Forms::is_file))]
pub fn is_file(text: &str, ending: &str) -> bool
    ensures { result ≡ is_file ending.now text.now }
{
    let parts = cut(text, '.');
    is_path(parts.front) && parts.rest == ending
}

/// Whether a text is names joined by `/`.
fn is_path(text: &str) -> bool
    ensures { result ≡ is_path text.now }
{
    text.split('/').all(|name| is_name(name))
}
