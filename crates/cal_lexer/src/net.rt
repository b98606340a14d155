//! Reading the text of a network, which has braces besides.

ghost use Rattle.std.specs.Prelude.{◌≡◌, ℕ, List, ◌<◌, ◌^◌, length, IfOk, IfErr, IsErrAnd, MatchResult, option_map};
ghost use Rattle.rvc_base.specs.declared.refusal.Rule.{Rule};
ghost use Rattle.cal_lexer.specs.Lexeme.{Placed, plain_tokens};
ghost use Rattle.cal_lexer.specs.Lexes.{lexes, IsMemoryOr};
ghost use Rattle.cal_lexer.specs.NetLexes.{lexes_net, faults_net, IsRightlyNet, HasNoBrace, brace_of};
ghost use Rattle.cal_lexer.specs.NetPieces.{IsNetPiece};
ghost use Rattle.cal_lexer.specs.Words.{lexeme_of};

use crate::bytes::byte_at;
use crate::piece::{Piece, next_piece};
use crate::token::Token;
use crate::word::Word;
use rvc_base::{Front, Memory, Place, Refusal};
use std::alloc::Global;

/// The tokens of the text of a network, which is the file of this number: those that [`lex`](crate::lex) finds, and
/// the braces `{` and `}`.
///
/// # Errors
///
/// `Refused` if the text has a fault, with the one that it has first (`refused`, `faulted`). `Memory` if memory runs
/// out.
///
/// # Examples
///
/// ```
/// let alloc = rt.alloc();
/// let tokens = lex_net(alloc, 1, b"{ bufferSize = 4; }")?;
/// assert_eq!(rt; tokens.len(), 6);
/// assert!(rt; matches!(tokens[5].kind, TokenKind::RightBrace) && tokens[5].at == 18);
/// ```
pub fn lex_net(alloc: Global, file: u32, text: &[u8]) -> Result<Vec<Token>, Front>
    requires { length text.now < 2 ^ 32 }
    ensures listed { IfOk result (λ tokens. lexes_net text.now (plain_tokens tokens.items)) }
    ensures refused { IfErr result (IsRightlyNet file text.now) }
    ensures read { (tokens : List Placed) → lexes_net text.now tokens
        → MatchResult result (λ ts. plain_tokens ts.items ≡ tokens) (λ e. e ≡ Front.Memory) }
    ensures faulted { (rule : Rule) (at : ℕ) → faults_net text.now rule at
        → IsErrAnd result (IsMemoryOr file rule at) }
{
    let mut tokens = Vec::new(alloc);
    let mut at = 0;
    while at < text.len() {
        let Ok(found) = next_net_piece(alloc, &text[at..]) else {
            return Err(Front::Memory);
        };
        match found {
            Piece::Gap(size) => at += size,
            Piece::Token(kind, size) => {
                let token = Token {
                    kind,
                    at: at as u32,
                };
                let Ok(()) = tokens.push(token) else {
                    return Err(Front::Memory);
                };
                at += size;
            }
            Piece::Fault(rule) => {
                let offset = at as u32;
                return Err(Front::Refused(Refusal {
                    rule,
                    place: Place { file, offset },
                }));
            }
        }
    }
    Ok(tokens)
}

/// What stands at the front of the text of a network.
fn next_net_piece(alloc: Global, text: &[u8]) -> Result<Piece, Memory>
    requires { 0 < length text.now }
    ensures { IfOk result (IsNetPiece text.now) }
{
    match brace(byte_at(text, 0)) {
        Some(word) => Ok(Piece::Token(word.kind(), 1)),
        None => next_piece(alloc, text),
    }
}

/// The brace that a byte is, if it is one.
fn brace(byte: u8) -> Option<Word>
    ensures { option_map lexeme_of result ≡ brace_of byte }
{
    match byte {
        b'{' => Some(Word::LeftBrace),
        b'}' => Some(Word::RightBrace),
        _ => None,
    }
}

/// The text of a network has at most one list of tokens.
pub fn one_list_of_a_network()
    ensures { (text : List ℕ) (tokens others : List Placed) → lexes_net text tokens
        → lexes_net text others → tokens ≡ others }
{}

/// The text of a network that has a list of tokens has no fault.
pub fn no_fault_in_a_list_of_a_network()
    ensures { (text : List ℕ) (tokens : List Placed) (rule : Rule) (at : ℕ)
        → lexes_net text tokens → faults_net text rule at → ⊥ }
{}

/// The text of a network has at most one first fault.
pub fn one_first_fault_of_a_network()
    ensures { (text : List ℕ) (rule other : Rule) (at place : ℕ) → faults_net text rule at
        → faults_net text other place → (rule ≡ other) × (at ≡ place) }
{}

/// The tokens of a text of the language are its tokens as the text of a network, too.
pub fn same_tokens_in_a_network()
    ensures { (text : List ℕ) (tokens : List Placed) → lexes text tokens → lexes_net text tokens }
{}

/// No token that a text has in the language is a brace. So [`lex`](crate::lex) answers none.
pub fn no_brace_in_a_list()
    ensures { (text : List ℕ) (tokens : List Placed) → lexes text tokens → HasNoBrace tokens }
{}
