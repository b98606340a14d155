//! Lists of parts, of any kind that can be read.

ghost use Rattle.std.specs.Prelude.{◌≡◌};
ghost use Rattle.cal_grammar.specs.Rules.{part};
ghost use Rattle.cal_parse_stmt.specs.Separator.{mark_of};
ghost use Rattle.cal_grammar.specs.Spells.{comma, separated, any, repeated};
ghost use Rattle.cal_parse_base.specs.Tells.{Tells, each};

use crate::names::Separator;
use cal_lexer::Token;
use cal_parse_base::cursor::{is_word, take_word};
use cal_parse_base::fault::Fault;
use std::alloc::Global;

/// A part of the grammar that lists are made of. A type that implements it stands for the part and holds nothing: the
/// trees are types of `cal_ast`, for which only this crate could implement it.
pub trait Read {
    ghost use Rattle.cal_ast.specs.Tree.{Tree};
    ghost use Rattle.cal_parse_base.specs.Cursor.{stands};
    ghost use Rattle.cal_grammar.specs.Rules as rules;
    ghost use Rattle.cal_grammar.specs.Spells.{Part};
    ghost use Rattle.cal_parse_base.specs.Tells.{Tells};

    /// What it is read as.
    type Value: Drop;

    /// Which part it is.
    ghost part: { Part };

    /// The tree that a value stands for.
    ghost tree: { Self.Value → Tree };

    /// Reads the part from the front, of a height of at most `room`.
    ///
    /// # Errors
    ///
    /// [`Fault::Refused`] or [`Fault::TooHigh`], and `tokens` then begin with what can't follow or is too high;
    /// [`Fault::Memory`] if memory runs out.
    fn read(alloc: Global, tokens: &mut &[Token], room: u32) -> Result<Self::Value, Fault>
        ensures { Tells tree room (rules.part part) result tokens.old.now tokens.new.now };

    /// Whether such a part begins at the front.
    fn starts(tokens: &[Token]) -> bool
        ensures { result ≡ stands (rules.starts part) tokens.now };
}

/// One part or more, with a word between them, each of a height of at most `room`.
///
/// # Errors
///
/// [`Fault::Refused`] or [`Fault::TooHigh`], and `tokens` then begin with what can't follow or is too high;
/// [`Fault::Memory`] if memory runs out.
pub fn separated<T: Read>(
    alloc: Global,
    tokens: &mut &[Token],
    room: u32,
    between: Separator,
) -> Result<Vec<T::Value>, Fault>
    ensures { Tells (each T.tree) room
        (part (separated (mark_of between) T.part)) result tokens.old.now tokens.new.now }
{
    let mut found = Vec::new(alloc);
    let word = between.word();
    'parts: loop {
        let next = T::read(alloc, tokens, room)?;
        found.push(next)?;
        if !is_word(tokens, word) {
            return Ok(found);
        }
        take_word(tokens, word);
    }
}

/// Any number of parts, with commas between them, each of a height of at most `room`.
///
/// # Errors
///
/// [`Fault::Refused`] or [`Fault::TooHigh`], and `tokens` then begin with what can't follow or is too high;
/// [`Fault::Memory`] if memory runs out.
pub fn any<T: Read>(alloc: Global, tokens: &mut &[Token], room: u32) -> Result<Vec<T::Value>, Fault>
    ensures { Tells (each T.tree) room
        (part (any comma T.part)) result tokens.old.now tokens.new.now }
{
    if !T::starts(tokens) {
        return Ok(Vec::new(alloc));
    }
    separated::<T>(alloc, tokens, room, Separator::Comma)
}

/// Any number of parts, one behind the other, each of a height of at most `room`.
///
/// # Errors
///
/// [`Fault::Refused`] or [`Fault::TooHigh`], and `tokens` then begin with what can't follow or is too high;
/// [`Fault::Memory`] if memory runs out.
pub fn repeated<T: Read>(
    alloc: Global,
    tokens: &mut &[Token],
    room: u32,
) -> Result<Vec<T::Value>, Fault>
    ensures { Tells (each T.tree) room
        (part (repeated T.part)) result tokens.old.now tokens.new.now }
{
    let mut found = Vec::new(alloc);
    'parts: while T::starts(tokens) {
        let next = T::read(alloc, tokens, room)?;
        found.push(next)?;
    }
    Ok(found)
}
