//! Expressions with their sizes and bounds written out, in one cycle.

ghost use Rattle.std.specs.Prelude.{map, string_bytes};
ghost use Rattle.cal_ast.specs.Tree as tree;
ghost use Rattle.cal_ast.specs.Tree.{listed};
ghost use Rattle.cal_ast.specs.View.{expr_tree, gen_tree};
ghost use Rattle.const_env.specs.Counting.{names_view};
ghost use Rattle.check_fold.specs.Seeing.{seen_among};
ghost use Rattle.check_fold.specs.Writing.{WritesExpr, WritesExprs};

use crate::gens::generators;
use crate::made;
use cal_ast::{BinOp, Expr, ExprForm, Gen, PrefixOp};
use const_eval::{Inside, Names};
use rvc_base::Memory;

/// An expression.
///
/// # Errors
///
/// `Memory` if memory runs out.
#[cycle(expr)]
pub fn expr(names: &Names, e: &Expr) -> Result<Expr, Memory>
    ensures { WritesExpr result (expr_tree e.now) (names_view names.now) }
{
    match &e.form {
        ExprForm::Number(value) => Ok(made::number(*value, e.at)),
        ExprForm::Bool(value) => Ok(made::truth(*value, e.at)),
        ExprForm::Name(name) => Ok(made::variable(name.clone()?, e.at)),
        ExprForm::Call { name, args } => call(names, name, args, e.at),
        ExprForm::Paren(inner) => paren(names, inner, e.at),
        ExprForm::If { test, yes, no } => if_expr(names, test, yes, no, e.at),
        ExprForm::List(items) => list(names, items, e.at),
        ExprForm::Comp { item, gens } => comp(names, item, gens, e.at),
        ExprForm::Index { base, place } => index(names, base, place, e.at),
        ExprForm::Prefix { op, of } => prefix(names, *op, of, e.at),
        ExprForm::Binary { op, left, right } => binary(names, *op, left, right, e.at),
    }
}

/// Expressions in order.
///
/// # Errors
///
/// `Memory` if memory runs out.
#[cycle(expr)]
pub fn exprs(names: &Names, exprs: &[Expr]) -> Result<Vec<Expr>, Memory>
    ensures { WritesExprs result (listed (map expr_tree exprs.now)) (names_view names.now) }
{
    let mut found = Vec::new(names.alloc);
    let mut rest = exprs;
    'each: while let Some((first, others)) = rest.split_first() {
        found.push(expr(names, first)?)?;
        rest = others;
    }
    Ok(found)
}

/// A call of a function.
#[cycle(expr)]
fn call(names: &Names, name: &String, args: &[Expr], at: u32) -> Result<Expr, Memory>
    ensures { WritesExpr result
        (tree.call (string_bytes name.now) (listed (map expr_tree args.now)) at)
        (names_view names.now) }
{
    let args = exprs(names, args)?;
    Ok(made::call(name.clone()?, args, at))
}

/// An expression in parentheses.
#[cycle(expr)]
fn paren(names: &Names, inner: &Expr, at: u32) -> Result<Expr, Memory>
    ensures { WritesExpr result (tree.paren (expr_tree inner.now) at) (names_view names.now) }
{
    let inner = expr(names, inner)?;
    made::paren(names.alloc, inner, at)
}

/// A condition and two branches.
#[cycle(expr)]
fn if_expr(names: &Names, test: &Expr, yes: &Expr, no: &Expr, at: u32) -> Result<Expr, Memory>
    ensures { WritesExpr result
        (tree.if_expr (expr_tree test.now) (expr_tree yes.now) (expr_tree no.now) at)
        (names_view names.now) }
{
    let test = expr(names, test)?;
    let yes = expr(names, yes)?;
    let no = expr(names, no)?;
    made::if_expr(names.alloc, test, yes, no, at)
}

/// A list.
#[cycle(expr)]
fn list(names: &Names, items: &[Expr], at: u32) -> Result<Expr, Memory>
    ensures { WritesExpr result (tree.list (listed (map expr_tree items.now)) at)
        (names_view names.now) }
{
    let items = exprs(names, items)?;
    Ok(made::list(items, at))
}

/// A comprehension, whose item sees the variables of its generators.
#[cycle(expr)]
fn comp(names: &Names, item: &Expr, gens: &[Gen], at: u32) -> Result<Expr, Memory>
    ensures { WritesExpr result (tree.comp (expr_tree item.now) (listed (map gen_tree gens.now)) at)
        (names_view names.now) }
{
    let item = expr_among(names, gens, item)?;
    let gens = generators(names, gens)?;
    made::comp(names.alloc, item, gens, at)
}

/// An expression that sees the variables of generators.
#[cycle(expr)]
fn expr_among(names: &Names, gens: &[Gen], e: &Expr) -> Result<Expr, Memory>
    ensures { WritesExpr result (expr_tree e.now) (seen_among gens.now names.now) }
{
    let inside = Inside::of_gens(gens, names.inner);
    expr(&names.under(&inside), e)
}

/// A place in a list.
#[cycle(expr)]
fn index(names: &Names, base: &Expr, place: &Expr, at: u32) -> Result<Expr, Memory>
    ensures { WritesExpr result (tree.index (expr_tree base.now) (expr_tree place.now) at)
        (names_view names.now) }
{
    let base = expr(names, base)?;
    let place = expr(names, place)?;
    made::index(names.alloc, base, place, at)
}

/// An operation with one operand.
#[cycle(expr)]
fn prefix(names: &Names, op: PrefixOp, of: &Expr, at: u32) -> Result<Expr, Memory>
    ensures { WritesExpr result (tree.prefix op (expr_tree of.now) at) (names_view names.now) }
{
    let of = expr(names, of)?;
    made::prefix(names.alloc, op, of, at)
}

/// An operation with two operands.
#[cycle(expr)]
fn binary(names: &Names, op: BinOp, left: &Expr, right: &Expr, at: u32) -> Result<Expr, Memory>
    ensures { WritesExpr result (tree.binary op (expr_tree left.now) (expr_tree right.now) at)
        (names_view names.now) }
{
    let left = expr(names, left)?;
    let right = expr(names, right)?;
    made::binary(names.alloc, op, left, right, at)
}
