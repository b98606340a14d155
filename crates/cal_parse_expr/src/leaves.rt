//! Expressions of one token.

ghost use Rattle.std.specs.Prelude.{◌≡◌, ◌≤◌, IfOk, true, string_bytes};
ghost use Rattle.cal_ast.specs.Tree.{variable};
ghost use Rattle.cal_parse_base.specs.Cursor.{stands};
ghost use Rattle.cal_parse_base.specs.Pairs.{tall_tree};
ghost use Rattle.cal_parse_expr.specs.Steps.{Does, number_step, truth_step, truth_word};
ghost use Rattle.cal_grammar.specs.Token.{counts, same_word};
ghost use Rattle.cal_lexer.specs.Words.{lexeme_of};

use crate::tall::tall;
use cal_ast::{ExprForm, Ident};
use cal_lexer::{Token, TokenKind, Word};
use cal_parse_base::cursor::take_word;
use cal_parse_base::fault::Fault;
use cal_parse_base::leading::leading_word;
use cal_parse_base::tall::MeasuredExpr;
use std::alloc::{AllocError, Global};

/// The number at the front.
pub fn number(alloc: Global, tokens: &mut &[Token], room: u32) -> Result<MeasuredExpr, Fault>
    requires { stands counts tokens.old.now ≡ true }
    ensures told { Does tall_tree room number_step result tokens.old.now tokens.new.now }
    ensures low { IfOk result (λ x. x.high ≤ room) }
{
    if room == 0 {
        return Err(Fault::TooHigh);
    }
    let all = *tokens;
    let Some((token, rest)) = all.split_first() else {
        unreachable!()
    };
    let TokenKind::Number(value) = &token.kind else {
        unreachable!()
    };
    *tokens = rest;
    Ok(tall(alloc, ExprForm::Number(*value), token.at, 1)?)
}

/// The word of a truth value.
fn word_of(value: bool) -> Word
    ensures { lexeme_of result ≡ truth_word value }
{
    match value {
        true => Word::True,
        false => Word::False,
    }
}

/// The truth value at the front.
pub fn truth(
    alloc: Global,
    tokens: &mut &[Token],
    room: u32,
    value: bool,
) -> Result<MeasuredExpr, Fault>
    requires { stands (same_word (truth_word value)) tokens.old.now ≡ true }
    ensures told { Does tall_tree room (truth_step value) result tokens.old.now tokens.new.now }
    ensures low { IfOk result (λ x. x.high ≤ room) }
{
    let at = leading_word(tokens, room, word_of(value))?;
    Ok(tall(alloc, ExprForm::Bool(value), at, 1)?)
}

/// A name that stands alone.
pub fn variable(alloc: Global, name: Ident) -> Result<MeasuredExpr, AllocError>
    ensures is { IfOk result (λ x. tall_tree x ≡ variable (string_bytes name.text) name.at) }
    ensures low { IfOk result (λ x. x.high ≡ 1) }
{
    tall(alloc, ExprForm::Name(name.text), name.at, 1)
}
