//! Lines read back from their text, a byte at a time.

ghost use Rattle.std.specs.Prelude.{◌≡◌, ◌↔◌, ◌++◌, ◌∷◌, [], ℕ, List};
ghost use Rattle.trace_text.specs.Spelling.{Spells, Begins, IsFront, since_line_feed};
ghost use Rattle.trace_text.specs.HasRead.{HasRead};
ghost use Rattle.trace_text.specs.HasTold.{HasTold, TellsOn};
ghost use Rattle.trace_text.specs.ReadBack.{IsAnswer};
ghost use Rattle.trace_text.specs.Answer.{answer_of};
ghost use Rattle.trace_text.specs.declared.line.Line.{Line as TheLine};

use crate::advance::advance;
use crate::line::Line;
use crate::place::Place;

/// A reader of lines. It takes no memory, and what it keeps has one size whatever it reads.
///
/// # Examples
///
/// ```
/// let mut reader = LineReader::new();
/// for byte in b"f 9 1" {
///     assert_eq!(rt; reader.next(*byte), Step2::More);
/// }
/// assert_eq!(rt;
///     reader.next(b'\n'),
///     Step2::Line(Line::Fire { inst: 9, action: 1 })
/// );
/// assert_eq!(rt; reader.next(b'?'), Step2::Bad);
/// ```
#[derive(Clone, Copy, Debug)]
pub struct LineReader {
    place: Place,
}

/// What a reader says of the bytes since the last line feed.
#[derive(Clone, Copy, Debug, PartialEq, Eq)]
pub enum Step2 {
    /// They begin a line, and are none.
    More,
    /// They are this line, its line feed included.
    Line(Line),
    /// They begin no line.
    Bad,
}

impl LineReader {
    /// A reader that has read nothing.
    pub fn new() -> LineReader
        ensures read { HasRead result [] }
        ensures told { HasTold result [] [] }
    {
        LineReader {
            place: Place::Start,
        }
    }

    /// Reads the next byte, and says what the bytes since the last line feed are, with this one.
    ///
    /// Behind each line feed a new line begins, whatever stood before it.
    ///
    /// If none of the bytes since the reader was made was bad, they are the lines that it told, one after another,
    /// and a prefix of one more (`told`).
    ///
    /// # Errors
    ///
    /// `Bad` if the bytes since the last line feed, with this one, begin no line (`bad`). After it each byte up to the
    /// next line feed is `Bad`, and that line feed too.
    pub fn next(&mut self, byte: u8) -> Step2
        ensures line { (read : List ℕ) (line : TheLine) → HasRead self.old read
            → (result ≡ Step2.Line line) ↔ Spells line (read ++ byte ∷ []) }
        ensures more { (read : List ℕ) → HasRead self.old read → (result ≡ Step2.More)
            ↔ IsFront (read ++ byte ∷ []) }
        ensures bad { (read : List ℕ) → HasRead self.old read → (result ≡ Step2.Bad)
            ↔ ¬ Begins (read ++ byte ∷ []) }
        ensures read { (read : List ℕ) → HasRead self.old read
            → HasRead self.new (since_line_feed read byte) }
        ensures answer { (read : List ℕ) → HasRead self.old read
            → IsAnswer (read ++ byte ∷ []) result }
        ensures told { (lines : List TheLine) (text : List ℕ) → HasTold self.old lines text
            → TellsOn self.new lines (text ++ byte ∷ []) result }
    {
        let place = advance(self.place, byte);
        self.place = if byte == b'\n' { Place::Start } else { place };
        answer(place)
    }
}

/// What is said at a place.
fn answer(place: Place) -> Step2
    ensures { result ≡ answer_of place }
{
    match place {
        Place::Ended { line } => Step2::Line(line),
        Place::Lost => Step2::Bad,
        _ => Step2::More,
    }
}
