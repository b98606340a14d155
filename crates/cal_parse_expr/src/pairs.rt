//! Expressions in pairs of parentheses.

ghost use Rattle.std.specs.Prelude.{◌≡◌, ◌≤◌, IfOk, true};
ghost use Rattle.cal_parse_base.specs.Pairs.{drops, tall_tree};
ghost use Rattle.cal_grammar.specs.Operators.{group, height};
ghost use Rattle.cal_parse_expr.specs.Steps.{Does, closing_step};

use crate::tall::tall;
use cal_ast::ExprForm;
use cal_lexer::{Token, Word};
use cal_parse_base::cursor::{is_word, take_word};
use cal_parse_base::fault::Fault;
use cal_parse_base::pairs::{fits_in_pair, is_dropped};
use cal_parse_base::tall::MeasuredExpr;
use std::alloc::{AllocError, Global};

/// The same expression, which begins here.
fn moved(inner: MeasuredExpr, at: u32) -> MeasuredExpr
    requires { drops (tall_tree inner) ≡ true }
    ensures is { tall_tree result ≡ group at (tall_tree inner) }
    ensures same { result.high ≡ inner.high }
{
    let mut expr = inner.expr;
    expr.at = at;
    MeasuredExpr {
        expr,
        high: inner.high,
    }
}

/// An expression in a pair of parentheses whose first stands here.
fn grouped(
    alloc: Global,
    room: u32,
    at: u32,
    inner: MeasuredExpr,
) -> Result<MeasuredExpr, AllocError>
    requires { height (group 0 (tall_tree inner)) ≤ room }
    ensures is { IfOk result (λ x. tall_tree x ≡ group at (tall_tree inner)) }
    ensures low { IfOk result (λ x. x.high ≤ room) }
{
    if is_dropped(&inner.expr) {
        return Ok(moved(inner, at));
    }
    let high = inner.high + 1;
    tall(alloc, ExprForm::Paren(inner.expr), at, high)
}

/// Takes the parenthesis that closes a pair, whose first stands here.
pub fn close_pair(
    alloc: Global,
    tokens: &mut &[Token],
    room: u32,
    at: u32,
    inner: MeasuredExpr,
) -> Result<MeasuredExpr, Fault>
    requires { inner.high ≤ room }
    ensures told { Does tall_tree room (closing_step at (tall_tree inner)) result tokens.old.now
        tokens.new.now }
    ensures low { IfOk result (λ x. x.high ≤ room) }
{
    if !is_word(tokens, Word::RightParen) {
        return Err(Fault::Refused);
    }
    if !fits_in_pair(room, &inner) {
        return Err(Fault::TooHigh);
    }
    take_word(tokens, Word::RightParen);
    Ok(grouped(alloc, room, at, inner)?)
}
