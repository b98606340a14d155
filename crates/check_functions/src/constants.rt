//! What must be constant in functions, and the names and calls in it.

ghost use Rattle.std.specs.Prelude.{◌≡◌, IfOk, false, true};
ghost use Rattle.cal_ast.specs.View.{expr_tree, function_tree, gen_tree, optional_expr, type_arg_tree, type_tree, var_tree};
ghost use Rattle.check_functions.specs.Known.{fun_decls};
ghost use Rattle.check_functions.specs.Needs.{AddsNeeds, AddsTo, exprs_tree, formals_tree, gens_tree, needs_of, type_args_tree, vars_tree, with_both, with_call, with_comp, with_needs, with_three};

use crate::declared::DeclaredFun;
use crate::needs::Needs;
use cal_ast::{Expr, ExprForm, Function, Gen, PortDecl, TypeArg, TypeExpr, VarDecl};
use rvc_base::Memory;
use std::alloc::Global;

/// Adds what an expression needs, which must be constant, or in which only sizes and bounds must.
#[cycle(needs)]
fn add_expr(needs: &mut Needs, constant: bool, e: &Expr) -> Result<(), Memory>
    ensures { AddsNeeds result constant (expr_tree e.now) needs.old needs.new }
{
    match &e.form {
        ExprForm::Number(_) => Ok(()),
        ExprForm::Bool(_) => Ok(()),
        ExprForm::Name(name) => needs.add_name(constant, name.as_str()),
        ExprForm::Call { name, args } => add_call(needs, constant, name.as_str(), args),
        ExprForm::Paren(inner) => add_expr(needs, constant, inner),
        ExprForm::If { test, yes, no } => add_three(needs, constant, test, yes, no),
        ExprForm::List(items) => add_exprs(needs, constant, items),
        ExprForm::Comp { item, gens } => add_comp(needs, constant, item, gens),
        ExprForm::Index { base, place } => add_two(needs, constant, base, place),
        ExprForm::Prefix { op: _, of } => add_expr(needs, constant, of),
        ExprForm::Binary { op: _, left, right } => add_two(needs, constant, left, right),
    }
}

/// Adds what a call with these arguments needs.
#[cycle(needs)]
fn add_call(needs: &mut Needs, constant: bool, name: &str, args: &[Expr]) -> Result<(), Memory>
    ensures { AddsTo result
        (λ n. with_needs constant (exprs_tree args.now) (with_call constant name.now n))
        needs.old needs.new }
{
    needs.add_call(constant, name)?;
    add_exprs(needs, constant, args)
}

/// Adds what two expressions need.
#[cycle(needs)]
fn add_two(needs: &mut Needs, constant: bool, first: &Expr, second: &Expr) -> Result<(), Memory>
    ensures { AddsTo result (with_both constant (expr_tree first.now) (expr_tree second.now))
        needs.old needs.new }
{
    add_expr(needs, constant, first)?;
    add_expr(needs, constant, second)
}

/// Adds what a condition and two branches need.
#[cycle(needs)]
fn add_three(
    needs: &mut Needs,
    constant: bool,
    test: &Expr,
    yes: &Expr,
    no: &Expr,
) -> Result<(), Memory>
    ensures { AddsTo result
        (with_three constant (expr_tree test.now) (expr_tree yes.now) (expr_tree no.now))
        needs.old needs.new }
{
    add_expr(needs, constant, test)?;
    add_expr(needs, constant, yes)?;
    add_expr(needs, constant, no)
}

/// Adds what a comprehension needs, whose generators have bounds.
#[cycle(needs)]
fn add_comp(needs: &mut Needs, constant: bool, item: &Expr, gens: &[Gen]) -> Result<(), Memory>
    ensures { AddsTo result (with_comp constant (expr_tree item.now) (gens_tree gens.now))
        needs.old needs.new }
{
    add_expr(needs, constant, item)?;
    add_gens(needs, gens)
}

/// Adds what expressions need, in order.
#[cycle(needs)]
fn add_exprs(needs: &mut Needs, constant: bool, exprs: &[Expr]) -> Result<(), Memory>
    ensures { AddsNeeds result constant (exprs_tree exprs.now) needs.old needs.new }
{
    let mut rest = exprs;
    'exprs: while let Some((first, others)) = rest.split_first() {
        add_expr(needs, constant, first)?;
        rest = others;
    }
    Ok(())
}

/// Adds what generators need, in order.
#[cycle(needs)]
fn add_gens(needs: &mut Needs, gens: &[Gen]) -> Result<(), Memory>
    ensures { AddsNeeds result true (gens_tree gens.now) needs.old needs.new }
{
    let mut rest = gens;
    'gens: while let Some((first, others)) = rest.split_first() {
        add_gen(needs, first)?;
        rest = others;
    }
    Ok(())
}

/// Adds what a generator needs: the sizes of its type, and both bounds.
#[cycle(needs)]
fn add_gen(needs: &mut Needs, g: &Gen) -> Result<(), Memory>
    ensures { AddsNeeds result true (gen_tree g.now) needs.old needs.new }
{
    add_type(needs, &g.shape)?;
    add_expr(needs, true, &g.from)?;
    add_expr(needs, true, &g.to)
}

/// Adds what the sizes of a type need.
#[cycle(needs)]
fn add_type(needs: &mut Needs, t: &TypeExpr) -> Result<(), Memory>
    ensures { AddsNeeds result true (type_tree t.now) needs.old needs.new }
{
    add_type_args(needs, &t.args)
}

/// Adds what arguments of a type need.
#[cycle(needs)]
fn add_type_args(needs: &mut Needs, args: &[TypeArg]) -> Result<(), Memory>
    ensures { AddsNeeds result true (type_args_tree args.now) needs.old needs.new }
{
    let mut rest = args;
    'arguments: while let Some((first, others)) = rest.split_first() {
        add_type_arg(needs, first)?;
        rest = others;
    }
    Ok(())
}

/// Adds what an argument of a type needs.
#[cycle(needs)]
fn add_type_arg(needs: &mut Needs, arg: &TypeArg) -> Result<(), Memory>
    ensures { AddsNeeds result true (type_arg_tree arg.now) needs.old needs.new }
{
    match arg {
        TypeArg::Shape { name: _, shape } => add_type(needs, shape),
        TypeArg::Value { name: _, value } => add_expr(needs, true, value),
    }
}

/// Adds what a start needs, which may be missing.
fn add_start(needs: &mut Needs, start: &Option<Expr>) -> Result<(), Memory>
    ensures { AddsNeeds result false (optional_expr start.now) needs.old needs.new }
{
    match start {
        Some(e) => add_expr(needs, false, e),
        None => Ok(()),
    }
}

/// Adds what a local needs.
fn add_var(needs: &mut Needs, v: &VarDecl) -> Result<(), Memory>
    ensures { AddsNeeds result false (var_tree v.now) needs.old needs.new }
{
    add_type(needs, &v.shape)?;
    add_start(needs, &v.start)
}

/// Adds what locals need, in order.
fn add_vars(needs: &mut Needs, vars: &[VarDecl]) -> Result<(), Memory>
    ensures { AddsNeeds result false (vars_tree vars.now) needs.old needs.new }
{
    let mut rest = vars;
    'vars: while let Some((first, others)) = rest.split_first() {
        add_var(needs, first)?;
        rest = others;
    }
    Ok(())
}

/// Adds what the types of formals need.
fn add_formals(needs: &mut Needs, formals: &[PortDecl]) -> Result<(), Memory>
    ensures { AddsNeeds result false (formals_tree formals.now) needs.old needs.new }
{
    let mut rest = formals;
    'formals: while let Some((first, others)) = rest.split_first() {
        add_type(needs, &first.shape)?;
        rest = others;
    }
    Ok(())
}

/// Adds what a function needs.
pub(crate) fn add_fun(needs: &mut Needs, f: &Function) -> Result<(), Memory>
    ensures { AddsNeeds result false (function_tree f.now) needs.old needs.new }
{
    add_formals(needs, &f.formals)?;
    add_type(needs, &f.result)?;
    add_vars(needs, &f.vars)?;
    add_expr(needs, false, &f.body)
}

/// What functions need.
pub(crate) fn needs_of(alloc: Global, funs: &[DeclaredFun]) -> Result<Needs, Memory>
    ensures { IfOk result (λ needs. needs ≡ needs_of (fun_decls funs.now)) }
{
    let mut needs = Needs::new(alloc);
    for f in funs {
        add_fun(&mut needs, f.decl)?;
    }
    Ok(needs)
}
