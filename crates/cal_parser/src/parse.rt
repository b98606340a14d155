//! Reading the file that tokens spell.

ghost use Rattle.std.specs.Prelude.{◌≡◌, ◌≤◌, IfOk, IfErr, MatchResult};
ghost use Rattle.cal_ast.specs.Tree.{Tree};
ghost use Rattle.cal_ast.specs.View.{file_tree};
ghost use Rattle.cal_lexer.specs.Lexeme.{plain_tokens};
ghost use Rattle.cal_grammar.specs.Operators.{height, max_height};
ghost use Rattle.cal_grammar.specs.Refusals.{IsRightly, place_in};
ghost use Rattle.cal_parser.specs.Answers.{answer_of};
ghost use Rattle.cal_grammar.specs.Spells.{spells};

use crate::files::whole;
use cal_ast::File;
use cal_lexer::Token;
use cal_parse_base::fault::Fault;
use rvc_base::{Front, Place, Refusal, Rule};
use std::alloc::Global;

/// The greatest height that is read: how deep expressions, statements, types and pairs of parentheses may nest.
pub const MAX_HEIGHT: u32 = 256;

/// The file that the tokens of a text spell. The text is the file of this number, and `end` is its length.
///
/// A list of tokens spells at most one tree, and one of a height of at most [`MAX_HEIGHT`] is always read, unless
/// memory runs out (`read`).
///
/// # Errors
///
/// `Refused` with [`Rule::SPELLS_NO_FILE`] at a token such that no file's tokens begin with those up to and including
/// it, or at `end` if all the tokens together spell none; with [`Rule::TOO_HIGH`] at a token such that no file of a
/// height of at most [`MAX_HEIGHT`] has tokens that begin with those up to and including it (`refused`). `Memory` if
/// memory runs out.
///
/// # Examples
///
/// ```
/// let alloc = rt.alloc();
/// let tokens = lex(alloc, 1, b"unit U : end")?;
/// let file = parse_file(alloc, 1, &tokens, 12)?;
/// assert!(rt; matches!(&file.body, Body::Unit(unit) if unit.members.is_empty()));
///
/// // Without `end` the tokens spell no file.
/// let Err(Front::Refused(refusal)) = parse_file(alloc, 1, &tokens[..3], 8) else {
///     panic!(rt; "it is refused")
/// };
/// assert!(rt; refusal.rule == Rule::SPELLS_NO_FILE && refusal.place.offset == 8);
/// ```
pub fn parse_file(alloc: Global, file: u32, tokens: &[Token], end: u32) -> Result<File, Front>
    ensures spelled { IfOk result (λ f. spells (plain_tokens tokens.now) (file_tree f)) }
    ensures low { IfOk result (λ f. height (file_tree f) ≤ max_height) }
    ensures refused { IfErr result (IsRightly file end (plain_tokens tokens.now)) }
    ensures read { (x : Tree) → spells (plain_tokens tokens.now) x → height x ≤ max_height
        → MatchResult result (λ f. file_tree f ≡ x) (λ e. e ≡ Front.Memory) }
{
    let mut left = tokens;
    match whole(alloc, &mut left, MAX_HEIGHT) {
        Ok(found) => Ok(found),
        Err(fault) => Err(answer(fault, file, place(left, end))),
    }
}

/// The offset of the first token, or the end of the text.
pub(crate) fn place(tokens: &[Token], end: u32) -> u32
    ensures { result ≡ place_in end (plain_tokens tokens.now) }
{
    match tokens.first() {
        None => end,
        Some(token) => token.at,
    }
}

/// Why a file isn't read, given the cause and its offset.
pub(crate) fn answer(fault: Fault, file: u32, offset: u32) -> Front
    ensures { result ≡ answer_of fault file offset }
{
    let place = Place { file, offset };
    match fault {
        Fault::Refused => Front::Refused(Refusal {
            rule: Rule::SPELLS_NO_FILE,
            place,
        }),
        Fault::TooHigh => Front::Refused(Refusal {
            rule: Rule::TOO_HIGH,
            place,
        }),
        Fault::Memory => Front::Memory,
    }
}
