//! Where the innermost constant expression begins that uses a name.
#![tactic(auto, using(crate::proofs::Last::last_of_both, crate::proofs::Last::both_in_turn))]

ghost use Rattle.std.specs.Prelude.{◌≡◌, ◌++◌, map};
ghost use Rattle.cal_ast.specs.Tree.{listed};
ghost use Rattle.cal_ast.specs.View.{expr_tree, gen_tree, type_arg_tree, type_tree};
ghost use Rattle.cal_check.specs.Constants.{constant_place, constants_in, last_using};
ghost use Rattle.check_values.specs.Inside.{from_outside, inside, inside_gens};

use crate::uses::uses_at;
use cal_ast::{Expr, ExprForm, Gen, TypeArg, TypeExpr};

/// Where the innermost constant expression begins that uses a name at an offset, if the whole expression must be
/// constant.
pub fn constant_place(p: u32, e: &Expr) -> u32
    ensures { result ≡ constant_place p (expr_tree e.now) }
{
    in_expr(p, e, e.at)
}

/// The same in a type, which is named itself if none of its sizes uses the name.
pub fn constant_place_in_type(p: u32, t: &TypeExpr) -> u32
    ensures { result ≡ constant_place p (type_tree t.now) }
{
    in_type(p, t, t.at)
}

/// Where the innermost one inside an expression begins, or else the one outside.
#[cycle(place)]
fn in_expr(p: u32, e: &Expr, outside: u32) -> u32
    ensures { result ≡ last_using p (inside e.now) outside }
{
    match &e.form {
        ExprForm::Call { args, .. } => in_exprs(p, args, outside),
        ExprForm::Paren(inner) => in_expr(p, inner, outside),
        ExprForm::If { test, yes, no } => in_three(p, test, yes, no, outside),
        ExprForm::List(items) => in_exprs(p, items, outside),
        ExprForm::Comp { item, gens } => in_comp(p, item, gens, outside),
        ExprForm::Index { base, place } => in_both(p, base, place, outside),
        ExprForm::Prefix { of, .. } => in_expr(p, of, outside),
        ExprForm::Binary { left, right, .. } => in_both(p, left, right, outside),
        ExprForm::Number(_) => outside,
        ExprForm::Bool(_) => outside,
        ExprForm::Name(_) => outside,
    }
}

/// The same in two expressions.
#[cycle(place)]
fn in_both(p: u32, left: &Expr, right: &Expr, outside: u32) -> u32
    ensures { result ≡ last_using p (inside left.now ++ inside right.now) outside }
{
    let within = in_expr(p, left, outside);
    in_expr(p, right, within)
}

/// The same in three expressions.
#[cycle(place)]
fn in_three(p: u32, first: &Expr, second: &Expr, third: &Expr, outside: u32) -> u32
    ensures { result
        ≡ last_using p (inside first.now ++ (inside second.now ++ inside third.now)) outside }
{
    let within = in_expr(p, first, outside);
    in_both(p, second, third, within)
}

/// The same in an item and its generators.
#[cycle(place)]
fn in_comp(p: u32, item: &Expr, gens: &[Gen], outside: u32) -> u32
    ensures { result ≡ last_using p (inside item.now ++ inside_gens gens.now) outside }
{
    let within = in_expr(p, item, outside);
    in_gens(p, gens, within)
}

/// The same in several expressions.
#[cycle(place)]
fn in_exprs(p: u32, exprs: &[Expr], outside: u32) -> u32
    ensures { result ≡ last_using p (constants_in (listed (map expr_tree exprs.now))) outside }
{
    let mut within = outside;
    let mut rest = exprs;
    'exprs: while let Some((first, others)) = rest.split_first() {
        within = in_expr(p, first, within);
        rest = others;
    }
    within
}

/// An expression that must be constant, and those inside it.
#[cycle(place)]
fn in_constant(p: u32, e: &Expr, outside: u32) -> u32
    ensures { result ≡ last_using p (from_outside e.now) outside }
{
    if uses_at(p, e) {
        return in_expr(p, e, e.at);
    }
    in_expr(p, e, outside)
}

/// The same in generators.
#[cycle(place)]
fn in_gens(p: u32, gens: &[Gen], outside: u32) -> u32
    ensures { result ≡ last_using p (inside_gens gens.now) outside }
{
    let mut within = outside;
    let mut rest = gens;
    'gens: while let Some((first, others)) = rest.split_first() {
        within = in_gen(p, first, within);
        rest = others;
    }
    within
}

/// The same in a generator, whose bounds must be constant.
#[cycle(place)]
fn in_gen(p: u32, generator: &Gen, outside: u32) -> u32
    ensures { result ≡ last_using p (constants_in (gen_tree generator.now)) outside }
{
    let within = in_type(p, &generator.shape, outside);
    in_bounds(p, &generator.from, &generator.to, within)
}

/// The same in the bounds of a generator.
#[cycle(place)]
fn in_bounds(p: u32, from: &Expr, to: &Expr, outside: u32) -> u32
    ensures { result ≡ last_using p (from_outside from.now ++ from_outside to.now) outside }
{
    let within = in_constant(p, from, outside);
    in_constant(p, to, within)
}

/// The same in a type.
#[cycle(place)]
fn in_type(p: u32, t: &TypeExpr, outside: u32) -> u32
    ensures { result ≡ last_using p (constants_in (type_tree t.now)) outside }
{
    in_args(p, &t.args, outside)
}

/// The same in arguments of a type.
#[cycle(place)]
fn in_args(p: u32, args: &[TypeArg], outside: u32) -> u32
    ensures { result ≡ last_using p (constants_in (listed (map type_arg_tree args.now))) outside }
{
    let mut within = outside;
    let mut rest = args;
    'each: while let Some((first, others)) = rest.split_first() {
        within = in_arg(p, first, within);
        rest = others;
    }
    within
}

/// The same in an argument of a type, whose value must be constant.
#[cycle(place)]
fn in_arg(p: u32, arg: &TypeArg, outside: u32) -> u32
    ensures { result ≡ last_using p (constants_in (type_arg_tree arg.now)) outside }
{
    match arg {
        TypeArg::Shape { shape, .. } => in_type(p, shape, outside),
        TypeArg::Value { value, .. } => in_constant(p, value, outside),
    }
}
