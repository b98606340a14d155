//! Operators, and which operands stand in parentheses.

ghost use Rattle.std.specs.Prelude.{◌≡◌};
ghost use Rattle.cal_ast.specs.View.{expr_tree};
ghost use Rattle.cal_print.specs.Tokens.{is_loose, word_of_binary, word_of_prefix};
ghost use Rattle.cal_lexer.specs.Words.{lexeme_of};

use cal_ast::{BinOp, Expr, ExprForm, PrefixOp};
use cal_lexer::Word;

/// The first spelling of an operator between two operands.
pub(crate) fn binary_word(op: BinOp) -> Word
    ensures { lexeme_of result ≡ word_of_binary op }
{
    match op {
        BinOp::Or => Word::Or,
        BinOp::And => Word::And,
        BinOp::BitOr => Word::Bar,
        BinOp::BitXor => Word::Caret,
        BinOp::BitAnd => Word::Ampersand,
        BinOp::Eq => Word::Equal,
        BinOp::Ne => Word::NotEqual,
        BinOp::Lt => Word::Less,
        BinOp::Le => Word::LessEqual,
        BinOp::Gt => Word::Greater,
        BinOp::Ge => Word::GreaterEqual,
        BinOp::Shl => Word::ShiftLeft,
        BinOp::Shr => Word::ShiftRight,
        BinOp::Add => Word::Plus,
        BinOp::Sub => Word::Minus,
        BinOp::Mul => Word::Star,
        BinOp::Div => Word::Slash,
        BinOp::Mod => Word::Mod,
    }
}

/// The spelling of an operator before its operand.
pub(crate) fn prefix_word(op: PrefixOp) -> Word
    ensures { lexeme_of result ≡ word_of_prefix op }
{
    match op {
        PrefixOp::Not => Word::Not,
        PrefixOp::Neg => Word::Minus,
        PrefixOp::BitNot => Word::Tilde,
    }
}

/// Whether an expression stands in parentheses if it is an operand or the base of an index.
pub(crate) fn stands_in_parens(e: &Expr) -> bool
    ensures { result ≡ is_loose (expr_tree e.now) }
{
    match &e.form {
        ExprForm::Binary { .. } | ExprForm::Prefix { .. } | ExprForm::If { .. } => true,
        _ => false,
    }
}
