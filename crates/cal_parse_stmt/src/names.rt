//! Names with dots or commas between them.

ghost use Rattle.std.specs.Prelude.{◌≡◌, map};
ghost use Rattle.cal_ast.specs.Places.{begins};
ghost use Rattle.cal_ast.specs.Tree.{listed};
ghost use Rattle.cal_ast.specs.View.{ident_tree};
ghost use Rattle.cal_parse_stmt.specs.Separator.{mark_of};
ghost use Rattle.cal_parse_base.specs.Tells.{TellsNames, TellsTag};

use cal_ast::{Ident, Tag};
use cal_lexer::{Token, Word};
use cal_parse_base::cursor::{is_word, name, take_word};
use cal_parse_base::fault::Fault;
use std::alloc::Global;

/// What stands between the parts of a list.
#[derive(Clone, Copy)]
pub enum Separator {
    Comma,
    Dot,
    Greater,
}

impl Separator {
    ghost use Rattle.std.specs.Prelude.{◌≡◌};
    ghost use Rattle.cal_parse_stmt.specs.Separator.{mark_of};
    ghost use Rattle.cal_grammar.specs.Spells.{mark};
    ghost use Rattle.cal_lexer.specs.Words.{lexeme_of};

    /// The word that it is.
    pub(crate) fn word(self) -> Word
        ensures { lexeme_of result ≡ mark (mark_of self) }
    {
        match self {
            Separator::Comma => Word::Comma,
            Separator::Dot => Word::Dot,
            Separator::Greater => Word::Greater,
        }
    }
}

/// One name or more, with a word between them.
///
/// # Errors
///
/// [`Fault::Refused`] if no name stands where one must, and `tokens` then begin there; [`Fault::Memory`] if memory
/// runs out.
pub fn names(alloc: Global, tokens: &mut &[Token], between: Separator) -> Result<Vec<Ident>, Fault>
    ensures { TellsNames (mark_of between) result tokens.old.now tokens.new.now }
{
    let mut found = Vec::new(alloc);
    let word = between.word();
    'names: loop {
        let next = name(alloc, tokens)?;
        found.push(next)?;
        if !is_word(tokens, word) {
            return Ok(found);
        }
        take_word(tokens, word);
    }
}

/// The offset of the first of several names, or 0.
fn first_offset(names: &[Ident]) -> u32
    ensures { result ≡ begins (listed (map ident_tree names.now)) }
{
    match names.first() {
        None => 0,
        Some(first) => first.at,
    }
}

/// A tag, or the name of a package: names with dots between them.
///
/// # Errors
///
/// [`Fault::Refused`] if no name stands where one must, and `tokens` then begin there; [`Fault::Memory`] if memory
/// runs out.
pub fn tag(alloc: Global, tokens: &mut &[Token]) -> Result<Tag, Fault>
    ensures { TellsTag result tokens.old.now tokens.new.now }
{
    let parts = names(alloc, tokens, Separator::Dot)?;
    let at = first_offset(&parts);
    Ok(Tag { parts, at })
}
