//! Numbers in decimal digits.

ghost use Rattle.std.specs.Prelude.{◌≡◌, ◌≤◌, IfSome};
ghost use Rattle.std.specs.List.{list_all};
ghost use Rattle.rvc_words.specs.Forms.{given_or, is_digit, number};
ghost use Rattle.rvc_words.specs.Given.{word_of};

/// The most digits of a number; leading zeros count.
const MAX_DIGITS: usize = 20;

/// Whether a word is decimal digits.
fn is_digits(word: &str) -> bool
    ensures { result ≡ list_all is_digit word.now }
{
    word.as_bytes()
        .iter()
        .all(|byte| b'0' <= *byte && *byte <= b'9')
}

/// The number that a word names, within bounds.
pub fn read_number(word: &str, least: u64, most: u64) -> Option<u64>
    ensures value { result ≡ number least most word.now }
    ensures bounds { IfSome result (λ value. (least ≤ value) × (value ≤ most)) }
{
    if MAX_DIGITS < word.len() {
        return None;
    }
    if !is_digits(word) {
        return None;
    }
    let Ok(value) = word.parse::<u64>() else {
        return None;
    };
    if value < least {
        return None;
    }
    if most < value {
        return None;
    }
    Some(value)
}

/// The number of an option, or the default if it isn't given.
pub fn number_or(word: Option<&str>, default: u64, most: u64) -> Option<u64>
    requires most { default ≤ most }
    ensures value { result ≡ given_or default (number 1 most) (word_of word.entry) }
    ensures least { IfSome result (λ value. 1 ≤ default → 1 ≤ value) }
    ensures most { IfSome result (λ value. value ≤ most) }
{
    match word {
        Some(word) => read_number(word, 1, most),
        None => Some(default),
    }
}
