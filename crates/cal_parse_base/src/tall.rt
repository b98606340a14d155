//! An expression that is read, with its height.
//!
//! It stands on the heap, where what is made of it takes it from.

ghost use Rattle.std.specs.Prelude.{◌≡◌};
ghost use Rattle.cal_ast.specs.View.{expr_tree};
ghost use Rattle.cal_grammar.specs.Operators.{height};

use cal_ast::Expr;

/// An expression and its height.
#[derive(Drop)]
pub struct MeasuredExpr {
    pub expr: Box<Expr>,
    pub high: u32,
    ghost is_high: { high ≡ height (expr_tree expr.value) },
}
