//! Pairs of parentheses round expressions: those that open, and whether one that is closed fits.

ghost use Rattle.std.specs.Prelude.{◌≡◌, ◌≤◌, nat_le};
ghost use Rattle.cal_ast.specs.View.{expr_tree};
ghost use Rattle.cal_parse_base.specs.Leading.{TookOpens};
ghost use Rattle.cal_grammar.specs.Operators.{group, height};
ghost use Rattle.cal_parse_base.specs.Pairs.{drops, tall_tree};

use crate::cursor::{is_word, take_word};
use crate::fault::Fault;
use crate::tall::MeasuredExpr;
use cal_ast::{Expr, ExprForm};
use cal_lexer::{Token, Word};
use std::alloc::Global;

/// Takes the opening parentheses at the front, and says where they stand.
pub fn take_opens(alloc: Global, tokens: &mut &[Token]) -> Result<Vec<u32>, Fault>
    ensures { TookOpens result tokens.old.now tokens.new.now }
{
    let mut opens = Vec::new(alloc);
    'opens: while is_word(tokens, Word::LeftParen) {
        let at = take_word(tokens, Word::LeftParen);
        opens.push(at)?;
    }
    Ok(opens)
}

/// Whether a pair round this expression is dropped.
pub fn is_dropped(expr: &Expr) -> bool
    ensures { result ≡ drops (expr_tree expr.now) }
{
    match &expr.form {
        ExprForm::If { .. } => true,
        ExprForm::Prefix { .. } => true,
        ExprForm::Binary { .. } => true,
        ExprForm::Number(_) => false,
        ExprForm::Bool(_) => false,
        ExprForm::Name(_) => false,
        ExprForm::Call { .. } => false,
        ExprForm::Paren(_) => false,
        ExprForm::List(_) => false,
        ExprForm::Comp { .. } => false,
        ExprForm::Index { .. } => false,
    }
}

/// Whether an expression in a pair of parentheses fits the room.
pub fn fits_in_pair(room: u32, inner: &MeasuredExpr) -> bool
    requires { inner.now.high ≤ room }
    ensures { result ≡ nat_le (height (group 0 (tall_tree inner.now))) room }
{
    if is_dropped(&inner.expr) {
        true
    } else {
        inner.high < room
    }
}
