//! Expressions that are read, each with its height.

ghost use Rattle.std.specs.Prelude.{◌≡◌, ◌≤◌, map};
ghost use Rattle.cal_ast.specs.Tree.{listed};
ghost use Rattle.cal_ast.specs.View.{expr_tree};
ghost use Rattle.cal_grammar.specs.Operators.{height, max_height};

use cal_ast::Expr;

/// The greatest height of an expression.
pub(crate) const MAX_HEIGHT: u32 = 256;

/// An expression and its height.
#[derive(Drop)]
pub struct MeasuredExpr {
    pub expr: Expr,
    pub high: u32,
    ghost is_high: { high ≡ height (expr_tree expr) },
    ghost low: { high ≤ max_height },
}

/// Expressions and the greatest of their heights.
#[derive(Drop)]
pub struct MeasuredExprs {
    pub exprs: Vec<Expr>,
    pub high: u32,
    ghost is_high: { high ≡ height (listed (map expr_tree exprs.items)) },
    ghost low: { high ≤ max_height },
}
