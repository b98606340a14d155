//! The names that expressions and types use, in one cycle.

ghost use Rattle.cal_ast.specs.Tree as tree;
ghost use Rattle.cal_ast.specs.View.{expr_tree, gen_tree, optional_expr, type_arg_tree, type_tree};
ghost use Rattle.check_used.specs.Naming.{AddsNames, AddsTo, exprs_tree, gens_tree, type_args_tree, with_both, with_three};

use crate::name_set::NameSet;
use cal_ast::{Expr, ExprForm, Gen, TypeArg, TypeExpr};
use rvc_base::Memory;

/// Adds the names in an expression.
#[cycle(names_of)]
pub(crate) fn add_expr(names: &mut NameSet, e: &Expr) -> Result<(), Memory>
    ensures { AddsNames result (expr_tree e.now) names.old names.new }
{
    match &e.form {
        ExprForm::Number(_) => Ok(()),
        ExprForm::Bool(_) => Ok(()),
        ExprForm::Name(name) => names.add(name.as_str()),
        ExprForm::Call { name, args } => add_call(names, name.as_str(), args, e.at),
        ExprForm::Paren(inner) => add_expr(names, inner),
        ExprForm::If { test, yes, no } => add_three(names, test, yes, no),
        ExprForm::List(items) => add_exprs(names, items),
        ExprForm::Comp { item, gens } => add_comp(names, item, gens),
        ExprForm::Index { base, place } => add_two(names, base, place),
        ExprForm::Prefix { op: _, of } => add_expr(names, of),
        ExprForm::Binary { op: _, left, right } => add_two(names, left, right),
    }
}

/// Adds the name of a function that is called, and the names in its arguments.
#[cycle(names_of)]
fn add_call(names: &mut NameSet, name: &str, args: &[Expr], at: u32) -> Result<(), Memory>
    ensures { AddsNames result (tree.call name.now (exprs_tree args.now) at) names.old names.new }
{
    names.add(name)?;
    add_exprs(names, args)
}

/// Adds the names in two expressions.
#[cycle(names_of)]
fn add_two(names: &mut NameSet, first: &Expr, second: &Expr) -> Result<(), Memory>
    ensures { AddsTo result (with_both (expr_tree first.now) (expr_tree second.now)) names.old names.new }
{
    add_expr(names, first)?;
    add_expr(names, second)
}

/// Adds the names in a condition and two branches.
#[cycle(names_of)]
fn add_three(names: &mut NameSet, test: &Expr, yes: &Expr, no: &Expr) -> Result<(), Memory>
    ensures { AddsTo result (with_three (expr_tree test.now) (expr_tree yes.now) (expr_tree no.now))
        names.old names.new }
{
    add_expr(names, test)?;
    add_expr(names, yes)?;
    add_expr(names, no)
}

/// Adds the names in a comprehension.
#[cycle(names_of)]
fn add_comp(names: &mut NameSet, item: &Expr, gens: &[Gen]) -> Result<(), Memory>
    ensures { AddsTo result (with_both (expr_tree item.now) (gens_tree gens.now)) names.old names.new }
{
    add_expr(names, item)?;
    add_gens(names, gens)
}

/// Adds the names in expressions in order.
#[cycle(names_of)]
pub(crate) fn add_exprs(names: &mut NameSet, exprs: &[Expr]) -> Result<(), Memory>
    ensures { AddsNames result (exprs_tree exprs.now) names.old names.new }
{
    let mut rest = exprs;
    'exprs: while let Some((first, others)) = rest.split_first() {
        add_expr(names, first)?;
        rest = others;
    }
    Ok(())
}

/// Adds the names in generators in order.
#[cycle(names_of)]
fn add_gens(names: &mut NameSet, gens: &[Gen]) -> Result<(), Memory>
    ensures { AddsNames result (gens_tree gens.now) names.old names.new }
{
    let mut rest = gens;
    'gens: while let Some((first, others)) = rest.split_first() {
        add_gen(names, first)?;
        rest = others;
    }
    Ok(())
}

/// Adds the names in a generator.
#[cycle(names_of)]
fn add_gen(names: &mut NameSet, g: &Gen) -> Result<(), Memory>
    ensures { AddsNames result (gen_tree g.now) names.old names.new }
{
    add_type(names, &g.shape)?;
    add_expr(names, &g.from)?;
    add_expr(names, &g.to)
}

/// Adds the names in a type.
#[cycle(names_of)]
pub(crate) fn add_type(names: &mut NameSet, t: &TypeExpr) -> Result<(), Memory>
    ensures { AddsNames result (type_tree t.now) names.old names.new }
{
    add_type_args(names, &t.args)
}

/// Adds the names in arguments of a type.
#[cycle(names_of)]
fn add_type_args(names: &mut NameSet, args: &[TypeArg]) -> Result<(), Memory>
    ensures { AddsNames result (type_args_tree args.now) names.old names.new }
{
    let mut rest = args;
    'arguments: while let Some((first, others)) = rest.split_first() {
        add_type_arg(names, first)?;
        rest = others;
    }
    Ok(())
}

/// Adds the names in an argument of a type.
#[cycle(names_of)]
fn add_type_arg(names: &mut NameSet, arg: &TypeArg) -> Result<(), Memory>
    ensures { AddsNames result (type_arg_tree arg.now) names.old names.new }
{
    match arg {
        TypeArg::Shape { name: _, shape } => add_type(names, shape),
        TypeArg::Value { name: _, value } => add_expr(names, value),
    }
}

/// Adds the names in an expression that may be missing.
pub(crate) fn add_optional(names: &mut NameSet, e: &Option<Expr>) -> Result<(), Memory>
    ensures { AddsNames result (optional_expr e.now) names.old names.new }
{
    match e {
        Some(e) => add_expr(names, e),
        None => Ok(()),
    }
}
