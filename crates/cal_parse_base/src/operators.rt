//! The operators at the front, and their levels.

ghost use Rattle.std.specs.Prelude.{◌≡◌, true};
ghost use Rattle.cal_lexer.specs.Lexeme.{lexeme};
ghost use Rattle.cal_parse_base.specs.Cursor.{stands};
ghost use Rattle.cal_parse_base.specs.Leading.{TookOperator, TookPrefix};
ghost use Rattle.cal_grammar.specs.Operators.{binary_of, is_prefix as makes_prefix, level_of as level_in, prefix_of as prefix_in};
ghost use Rattle.cal_grammar.specs.Rules.{at_level};

use crate::fault::Fault;
use cal_ast::{BinOp, PrefixOp};
use cal_lexer::{Token, TokenKind};

/// The level of the loosest operators.
pub const LOOSEST: u8 = 10;

/// The level of a binary operator, from 1 for the tightest to 10 for the loosest; 0 for what is none.
fn level_of(kind: &TokenKind) -> u8
    ensures { result ≡ level_in (lexeme kind.now) }
{
    match kind {
        TokenKind::Or | TokenKind::OrOr => 10,
        TokenKind::And | TokenKind::AndAnd => 9,
        TokenKind::Bar => 8,
        TokenKind::Caret => 7,
        TokenKind::Ampersand => 6,
        TokenKind::Equal | TokenKind::NotEqual => 5,
        TokenKind::Less | TokenKind::LessEqual | TokenKind::Greater | TokenKind::GreaterEqual => 4,
        TokenKind::ShiftLeft | TokenKind::ShiftRight => 3,
        TokenKind::Plus | TokenKind::Minus => 2,
        TokenKind::Star | TokenKind::Slash | TokenKind::Div | TokenKind::Mod => 1,
        _ => 0,
    }
}

/// The binary operator that a token stands for.
fn operator_of(kind: &TokenKind) -> BinOp
    ensures { result ≡ binary_of (lexeme kind.now) }
{
    match kind {
        TokenKind::And | TokenKind::AndAnd => BinOp::And,
        TokenKind::Bar => BinOp::BitOr,
        TokenKind::Caret => BinOp::BitXor,
        TokenKind::Ampersand => BinOp::BitAnd,
        TokenKind::Equal => BinOp::Eq,
        TokenKind::NotEqual => BinOp::Ne,
        TokenKind::Less => BinOp::Lt,
        TokenKind::LessEqual => BinOp::Le,
        TokenKind::Greater => BinOp::Gt,
        TokenKind::GreaterEqual => BinOp::Ge,
        TokenKind::ShiftLeft => BinOp::Shl,
        TokenKind::ShiftRight => BinOp::Shr,
        TokenKind::Plus => BinOp::Add,
        TokenKind::Minus => BinOp::Sub,
        TokenKind::Star => BinOp::Mul,
        TokenKind::Slash | TokenKind::Div => BinOp::Div,
        TokenKind::Mod => BinOp::Mod,
        _ => BinOp::Or,
    }
}

/// The prefix operator that a token stands for.
fn prefix_of(kind: &TokenKind) -> PrefixOp
    ensures { result ≡ prefix_in (lexeme kind.now) }
{
    match kind {
        TokenKind::Minus => PrefixOp::Neg,
        TokenKind::Tilde => PrefixOp::BitNot,
        _ => PrefixOp::Not,
    }
}

/// Whether a binary operator of the level `n + 1` is at the front.
pub fn is_operator(tokens: &[Token], n: u8) -> bool
    ensures { result ≡ stands (at_level n) tokens.now }
{
    match tokens.first() {
        None => false,
        Some(token) => {
            let level = level_of(&token.kind);
            level != 0 && level - 1 == n
        }
    }
}

/// Takes the binary operator of the level `n + 1` at the front, behind a left side of this height.
pub fn take_operator(tokens: &mut &[Token], room: u32, n: u8, high: u32) -> Result<BinOp, Fault>
    requires { stands (at_level n) tokens.old.now ≡ true }
    ensures { TookOperator room n high result tokens.old.now tokens.new.now }
{
    if high >= room {
        return Err(Fault::TooHigh);
    }
    let all = *tokens;
    let Some((token, rest)) = all.split_first() else {
        unreachable!()
    };
    *tokens = rest;
    Ok(operator_of(&token.kind))
}

/// Whether a prefix is at the front.
pub fn is_prefix(tokens: &[Token]) -> bool
    ensures { result ≡ stands makes_prefix tokens.now }
{
    match tokens.first() {
        None => false,
        Some(token) => match &token.kind {
            TokenKind::Not | TokenKind::Minus | TokenKind::Tilde => true,
            _ => false,
        },
    }
}

/// A prefix where it stands.
#[derive(Clone, Copy)]
pub struct Prefix {
    pub op: PrefixOp,
    pub at: u32,
}

/// Takes the prefix at the front.
pub fn take_prefix(tokens: &mut &[Token], room: u32) -> Result<Prefix, Fault>
    requires { stands makes_prefix tokens.old.now ≡ true }
    ensures { TookPrefix room result tokens.old.now tokens.new.now }
{
    if room == 0 {
        return Err(Fault::TooHigh);
    }
    let all = *tokens;
    let Some((token, rest)) = all.split_first() else {
        unreachable!()
    };
    *tokens = rest;
    Ok(Prefix {
        op: prefix_of(&token.kind),
        at: token.at,
    })
}
