//! Reading a text.

ghost use Rattle.std.specs.Prelude.{◌≡◌, ℕ, List, ◌<◌, ◌^◌, length, IfOk, IfErr, IsErrAnd, MatchResult};
ghost use Rattle.rvc_base.specs.declared.refusal.Rule.{Rule};
ghost use Rattle.cal_lexer.specs.Lexeme.{Placed, plain_tokens};
ghost use Rattle.cal_lexer.specs.Lexes.{lexes, faults, IsRightly, IsMemoryOr};

use crate::piece::{Piece, next_piece};
use crate::token::Token;
use rvc_base::{Front, Place, Refusal};
use std::alloc::Global;

/// The tokens of a text, which is the file of this number.
///
/// # Errors
///
/// `Refused` if the text has a fault, with the one that it has first (`refused`, `faulted`). `Memory` if memory runs
/// out.
///
/// # Examples
///
/// ```
/// let alloc = rt.alloc();
/// let tokens = lex(alloc, 1, b"x := 0xFF;")?;
/// assert_eq!(rt; tokens.len(), 4);
/// assert!(rt; matches!(tokens[2].kind, TokenKind::Number(255)) && tokens[2].at == 5);
///
/// let Err(Front::Refused(refusal)) = lex(alloc, 1, b"x := $;") else {
///     panic!(rt; "it has a fault")
/// };
/// assert_eq!(rt; refusal.place.offset, 5);
/// ```
pub fn lex(alloc: Global, file: u32, text: &[u8]) -> Result<Vec<Token>, Front>
    requires { length text.now < 2 ^ 32 }
    ensures listed { IfOk result (λ tokens. lexes text.now (plain_tokens tokens.items)) }
    ensures refused { IfErr result (IsRightly file text.now) }
    ensures read { (tokens : List Placed) → lexes text.now tokens
        → MatchResult result (λ ts. plain_tokens ts.items ≡ tokens) (λ e. e ≡ Front.Memory) }
    ensures faulted { (rule : Rule) (at : ℕ) → faults text.now rule at
        → IsErrAnd result (IsMemoryOr file rule at) }
{
    let mut tokens = Vec::new(alloc);
    let mut at = 0;
    while at < text.len() {
        let Ok(found) = next_piece(alloc, &text[at..]) else {
            return Err(Front::Memory);
        };
        match found {
            Piece::Gap(size) => at += size,
            Piece::Token(kind, size) => {
                let token = Token {
                    kind,
                    at: at as u32,
                };
                let Ok(()) = tokens.push(token) else {
                    return Err(Front::Memory);
                };
                at += size;
            }
            Piece::Fault(rule) => {
                let offset = at as u32;
                return Err(Front::Refused(Refusal {
                    rule,
                    place: Place { file, offset },
                }));
            }
        }
    }
    Ok(tokens)
}

/// A text has at most one list of tokens.
pub fn one_list()
    ensures { (text : List ℕ) (tokens others : List Placed) → lexes text tokens → lexes text others
        → tokens ≡ others }
{}

/// A text that has a list of tokens has no fault.
pub fn no_fault_in_a_list()
    ensures { (text : List ℕ) (tokens : List Placed) (rule : Rule) (at : ℕ) → lexes text tokens
        → faults text rule at → ⊥ }
{}

/// A text has at most one first fault.
pub fn one_first_fault()
    ensures { (text : List ℕ) (rule other : Rule) (at place : ℕ) → faults text rule at
        → faults text other place → (rule ≡ other) × (at ≡ place) }
{}
