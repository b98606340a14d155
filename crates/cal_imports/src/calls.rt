//! The calls in expressions and types, in one cycle.

ghost use Rattle.std.specs.Prelude.{◌≡◌, [], OnOk};
ghost use Rattle.cal_ast.specs.Tree as tree;
ghost use Rattle.cal_ast.specs.View.{expr_tree, gen_tree, optional_expr, type_arg_tree, type_tree};
ghost use Rattle.cal_scope.specs.Asked.{exprs_tree, gens_tree, type_args_tree};
ghost use Rattle.cal_imports.specs.Calls.{with_both, with_call, with_three};
ghost use Rattle.cal_imports.specs.CallsView.{AddsCalls, AddsTo, calls_view};

use crate::graph::Edge;
use cal_ast::{Expr, ExprForm, Gen, TypeArg, TypeExpr};
use rvc_base::Memory;
use std::alloc::Global;

/// Calls that were collected, in order.
#[derive(Drop)]
pub(crate) struct Calls {
    pub alloc: Global,
    pub found: Vec<Edge>,
}

impl Calls {
    /// None.
    pub(crate) fn none(alloc: Global) -> Calls
        ensures { calls_view result ≡ [] }
    {
        Calls {
            alloc,
            found: Vec::new(alloc),
        }
    }
}

/// Adds a call.
pub(crate) fn add_call(calls: &mut Calls, name: &str, at: u32) -> Result<(), Memory>
    ensures { OnOk result (calls_view calls.new ≡ with_call name.now at (calls_view calls.old)) }
{
    let to = String::from_str(calls.alloc, name)?;
    calls.found.push(Edge { to, at })?;
    Ok(())
}

/// Adds the calls in an expression.
#[cycle(expr_calls)]
pub(crate) fn add_expr(calls: &mut Calls, e: &Expr) -> Result<(), Memory>
    ensures { AddsCalls result (expr_tree e.now) calls.old calls.new }
{
    match &e.form {
        ExprForm::Number(_) => Ok(()),
        ExprForm::Bool(_) => Ok(()),
        ExprForm::Name(_) => Ok(()),
        ExprForm::Call { name, args } => add_function_call(calls, name.as_str(), args, e.at),
        ExprForm::Paren(inner) => add_expr(calls, inner),
        ExprForm::If { test, yes, no } => add_three(calls, test, yes, no),
        ExprForm::List(items) => add_exprs(calls, items),
        ExprForm::Comp { item, gens } => add_comp(calls, item, gens),
        ExprForm::Index { base, place } => add_two(calls, base, place),
        ExprForm::Prefix { op: _, of } => add_expr(calls, of),
        ExprForm::Binary { op: _, left, right } => add_two(calls, left, right),
    }
}

/// Adds a call of a function, and the calls in its arguments.
#[cycle(expr_calls)]
fn add_function_call(calls: &mut Calls, name: &str, args: &[Expr], at: u32) -> Result<(), Memory>
    ensures { AddsCalls result (tree.call name.now (exprs_tree args.now) at) calls.old calls.new }
{
    add_call(calls, name, at)?;
    add_exprs(calls, args)
}

/// Adds the calls in two expressions.
#[cycle(expr_calls)]
fn add_two(calls: &mut Calls, first: &Expr, second: &Expr) -> Result<(), Memory>
    ensures { AddsTo result (with_both (expr_tree first.now) (expr_tree second.now)) calls.old calls.new }
{
    add_expr(calls, first)?;
    add_expr(calls, second)
}

/// Adds the calls in a condition and two branches.
#[cycle(expr_calls)]
fn add_three(calls: &mut Calls, test: &Expr, yes: &Expr, no: &Expr) -> Result<(), Memory>
    ensures { AddsTo result (with_three (expr_tree test.now) (expr_tree yes.now) (expr_tree no.now))
        calls.old calls.new }
{
    add_expr(calls, test)?;
    add_expr(calls, yes)?;
    add_expr(calls, no)
}

/// Adds the calls in a comprehension.
#[cycle(expr_calls)]
fn add_comp(calls: &mut Calls, item: &Expr, gens: &[Gen]) -> Result<(), Memory>
    ensures { AddsTo result (with_both (expr_tree item.now) (gens_tree gens.now)) calls.old calls.new }
{
    add_expr(calls, item)?;
    add_gens(calls, gens)
}

/// Adds the calls in expressions in order.
#[cycle(expr_calls)]
pub(crate) fn add_exprs(calls: &mut Calls, exprs: &[Expr]) -> Result<(), Memory>
    ensures { AddsCalls result (exprs_tree exprs.now) calls.old calls.new }
{
    let mut rest = exprs;
    'exprs: while let Some((first, others)) = rest.split_first() {
        add_expr(calls, first)?;
        rest = others;
    }
    Ok(())
}

/// Adds the calls in generators in order.
#[cycle(expr_calls)]
fn add_gens(calls: &mut Calls, gens: &[Gen]) -> Result<(), Memory>
    ensures { AddsCalls result (gens_tree gens.now) calls.old calls.new }
{
    let mut rest = gens;
    'gens: while let Some((first, others)) = rest.split_first() {
        add_gen(calls, first)?;
        rest = others;
    }
    Ok(())
}

/// Adds the calls in a generator.
#[cycle(expr_calls)]
fn add_gen(calls: &mut Calls, g: &Gen) -> Result<(), Memory>
    ensures { AddsCalls result (gen_tree g.now) calls.old calls.new }
{
    add_type(calls, &g.shape)?;
    add_expr(calls, &g.from)?;
    add_expr(calls, &g.to)
}

/// Adds the calls in a type.
#[cycle(expr_calls)]
pub(crate) fn add_type(calls: &mut Calls, t: &TypeExpr) -> Result<(), Memory>
    ensures { AddsCalls result (type_tree t.now) calls.old calls.new }
{
    add_type_args(calls, &t.args)
}

/// Adds the calls in arguments of a type.
#[cycle(expr_calls)]
fn add_type_args(calls: &mut Calls, args: &[TypeArg]) -> Result<(), Memory>
    ensures { AddsCalls result (type_args_tree args.now) calls.old calls.new }
{
    let mut rest = args;
    'arguments: while let Some((first, others)) = rest.split_first() {
        add_type_arg(calls, first)?;
        rest = others;
    }
    Ok(())
}

/// Adds the calls in an argument of a type.
#[cycle(expr_calls)]
fn add_type_arg(calls: &mut Calls, arg: &TypeArg) -> Result<(), Memory>
    ensures { AddsCalls result (type_arg_tree arg.now) calls.old calls.new }
{
    match arg {
        TypeArg::Shape { name: _, shape } => add_type(calls, shape),
        TypeArg::Value { name: _, value } => add_expr(calls, value),
    }
}

/// Adds the calls in an expression that may be missing.
pub(crate) fn add_optional(calls: &mut Calls, e: &Option<Expr>) -> Result<(), Memory>
    ensures { AddsCalls result (optional_expr e.now) calls.old calls.new }
{
    match e {
        Some(e) => add_expr(calls, e),
        None => Ok(()),
    }
}
