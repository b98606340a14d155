//! Where a name is used in an expression or a type, in one cycle.

ghost use Rattle.std.specs.Prelude.{◌≡◌, ◌∷◌, map};
ghost use Rattle.cal_ast.specs.Places.{begins};
ghost use Rattle.cal_ast.specs.Tree.{listed};
ghost use Rattle.cal_ast.specs.View.{expr_tree, gen_tree, type_arg_tree, type_tree};
ghost use Rattle.cal_check.specs.Constants.{constants_in, uses_at};
ghost use Rattle.check_variable.specs.Finding.{Finds, FindsIn};

use crate::places::Found;
use cal_ast::{Expr, ExprForm, Gen, TypeArg, TypeExpr};

/// What is found in an expression of the name at an offset.
#[cycle(find)]
pub(crate) fn in_expr(p: u32, e: &Expr) -> Found
    ensures { FindsIn p result (expr_tree e.now) }
{
    match &e.form {
        ExprForm::Number(_) => Found::nowhere(),
        ExprForm::Bool(_) => Found::nowhere(),
        ExprForm::Name(_) => Found::here(e.at == p),
        ExprForm::Call { args, .. } => Found::here(e.at == p).and(in_exprs(p, args)),
        ExprForm::Paren(inner) => in_expr(p, inner),
        ExprForm::If { test, yes, no } => {
            let test = in_expr(p, test);
            let yes = in_expr(p, yes);
            let no = in_expr(p, no);
            test.and(yes.and(no))
        }
        ExprForm::List(items) => in_exprs(p, items),
        ExprForm::Comp { item, gens } => {
            let item = in_expr(p, item);
            item.and(in_gens(p, gens))
        }
        ExprForm::Index { base, place } => {
            let base = in_expr(p, base);
            base.and(in_expr(p, place))
        }
        ExprForm::Prefix { of, .. } => in_expr(p, of),
        ExprForm::Binary { left, right, .. } => {
            let left = in_expr(p, left);
            left.and(in_expr(p, right))
        }
    }
}

/// The same of expressions in order.
#[cycle(find)]
fn in_exprs(p: u32, exprs: &[Expr]) -> Found
    ensures { FindsIn p result (listed (map expr_tree exprs.now)) }
{
    let mut found = Found::nowhere();
    let mut rest = exprs;
    'each: while let Some((first, others)) = rest.split_first() {
        let next = in_expr(p, first);
        found = found.and(next);
        rest = others;
    }
    found
}

/// The same of generators in order.
#[cycle(find)]
fn in_gens(p: u32, gens: &[Gen]) -> Found
    ensures { FindsIn p result (listed (map gen_tree gens.now)) }
{
    let mut found = Found::nowhere();
    let mut rest = gens;
    'each: while let Some((first, others)) = rest.split_first() {
        let next = in_gen(p, first);
        found = found.and(next);
        rest = others;
    }
    found
}

/// The same of a generator, whose bounds must be constant.
#[cycle(find)]
fn in_gen(p: u32, g: &Gen) -> Found
    ensures { FindsIn p result (gen_tree g.now) }
{
    let shape = in_type(p, &g.shape);
    let from = in_constant(p, &g.from);
    let to = in_constant(p, &g.to);
    shape.and(from.and(to))
}

/// The same of an expression that must be constant.
#[cycle(find)]
fn in_constant(p: u32, e: &Expr) -> Found
    ensures { Finds p result (uses_at p (expr_tree e.now))
        (expr_tree e.now ∷ constants_in (expr_tree e.now)) }
{
    in_expr(p, e).constant(place_of(e))
}

/// The same of a type.
#[cycle(find)]
pub(crate) fn in_type(p: u32, t: &TypeExpr) -> Found
    ensures { FindsIn p result (type_tree t.now) }
{
    in_args(p, &t.args)
}

/// The same of the arguments of a type in order.
#[cycle(find)]
fn in_args(p: u32, args: &[TypeArg]) -> Found
    ensures { FindsIn p result (listed (map type_arg_tree args.now)) }
{
    let mut found = Found::nowhere();
    let mut rest = args;
    'each: while let Some((first, others)) = rest.split_first() {
        let next = in_arg(p, first);
        found = found.and(next);
        rest = others;
    }
    found
}

/// The same of an argument of a type; a size must be constant.
#[cycle(find)]
fn in_arg(p: u32, arg: &TypeArg) -> Found
    ensures { FindsIn p result (type_arg_tree arg.now) }
{
    match arg {
        TypeArg::Shape { shape, .. } => in_type(p, shape),
        TypeArg::Value { value, .. } => in_constant(p, value),
    }
}

/// The offset at which an expression begins.
pub(crate) fn place_of(e: &Expr) -> u32
    ensures { result ≡ begins (expr_tree e.now) }
{
    e.at
}

/// The offset at which a type begins.
pub(crate) fn place_of_type(t: &TypeExpr) -> u32
    ensures { result ≡ begins (type_tree t.now) }
{
    t.at
}
