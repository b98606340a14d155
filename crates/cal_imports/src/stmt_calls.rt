//! The calls in statements and routines.

ghost use Rattle.cal_ast.specs.Tree as tree;
ghost use Rattle.cal_ast.specs.View.{body_tree, expr_tree, function_tree, ident_tree, procedure_tree, stmt_tree, var_tree};
ghost use Rattle.cal_scope.specs.Asked.{assign_tree, exprs_tree, foreach_tree, if_stmt_tree, ports_tree, stmts_tree, vars_tree};
ghost use Rattle.cal_imports.specs.CallsView.{AddsCalls};

use crate::calls::{Calls, add_call, add_expr, add_exprs, add_optional, add_type};
use cal_ast::{Expr, Function, Ident, PortDecl, Procedure, Stmt, StmtForm, TypeExpr, VarDecl};
use rvc_base::Memory;

/// Adds the calls in a variable.
fn add_var(calls: &mut Calls, v: &VarDecl) -> Result<(), Memory>
    ensures { AddsCalls result (var_tree v.now) calls.old calls.new }
{
    add_type(calls, &v.shape)?;
    add_optional(calls, &v.start)
}

/// Adds the calls in variables in order.
fn add_vars(calls: &mut Calls, vars: &[VarDecl]) -> Result<(), Memory>
    ensures { AddsCalls result (vars_tree vars.now) calls.old calls.new }
{
    let mut rest = vars;
    'vars: while let Some((first, others)) = rest.split_first() {
        add_var(calls, first)?;
        rest = others;
    }
    Ok(())
}

/// Adds the calls in the types of formals.
fn add_formals(calls: &mut Calls, formals: &[PortDecl]) -> Result<(), Memory>
    ensures { AddsCalls result (ports_tree formals.now) calls.old calls.new }
{
    let mut rest = formals;
    'formals: while let Some((first, others)) = rest.split_first() {
        add_type(calls, &first.shape)?;
        rest = others;
    }
    Ok(())
}

/// Adds the calls in an assignment.
fn add_assign(
    calls: &mut Calls,
    name: &Ident,
    places: &[Expr],
    value: &Expr,
    at: u32,
) -> Result<(), Memory>
    ensures { AddsCalls result (assign_tree name.now places.now value.now at) calls.old calls.new }
{
    add_exprs(calls, places)?;
    add_expr(calls, value)
}

/// Adds a call of a procedure, and the calls in its arguments.
fn add_procedure_call(calls: &mut Calls, name: &Ident, args: &[Expr], at: u32) -> Result<(), Memory>
    ensures { AddsCalls result (tree.call_stmt (ident_tree name.now) (exprs_tree args.now) at)
        calls.old calls.new }
{
    add_call(calls, name.text.as_str(), at)?;
    add_exprs(calls, args)
}

/// Adds the calls in a statement.
#[cycle(stmt_calls)]
fn add_stmt(calls: &mut Calls, s: &Stmt) -> Result<(), Memory>
    ensures { AddsCalls result (stmt_tree s.now) calls.old calls.new }
{
    match &s.form {
        StmtForm::Assign {
            name,
            places,
            value,
        } => add_assign(calls, name, places, value, s.at),
        StmtForm::Call { name, args } => add_procedure_call(calls, name, args, s.at),
        StmtForm::If { test, yes, no } => add_if(calls, test, yes, no, s.at),
        StmtForm::While { test, body } => add_while(calls, test, body, s.at),
        StmtForm::Foreach {
            shape,
            name,
            from,
            to,
            body,
        } => add_foreach(calls, shape, name, from, to, body, s.at),
        StmtForm::Block { vars, body } => add_block(calls, vars, body, s.at),
    }
}

/// Adds the calls in a condition and one or two branches.
#[cycle(stmt_calls)]
fn add_if(
    calls: &mut Calls,
    test: &Expr,
    yes: &[Stmt],
    no: &Option<Vec<Stmt>>,
    at: u32,
) -> Result<(), Memory>
    ensures { AddsCalls result (if_stmt_tree test.now yes.now no.now at) calls.old calls.new }
{
    add_expr(calls, test)?;
    add_stmts(calls, yes)?;
    add_optional_stmts(calls, no)
}

/// Adds the calls in a loop over a condition.
#[cycle(stmt_calls)]
fn add_while(calls: &mut Calls, test: &Expr, body: &[Stmt], at: u32) -> Result<(), Memory>
    ensures { AddsCalls result (tree.while_stmt (expr_tree test.now) (stmts_tree body.now) at)
        calls.old calls.new }
{
    add_expr(calls, test)?;
    add_stmts(calls, body)
}

/// Adds the calls in a loop over a range.
#[cycle(stmt_calls)]
fn add_foreach(
    calls: &mut Calls,
    shape: &TypeExpr,
    name: &Ident,
    from: &Expr,
    to: &Expr,
    body: &[Stmt],
    at: u32,
) -> Result<(), Memory>
    ensures { AddsCalls result (foreach_tree shape.now name.now from.now to.now body.now at)
        calls.old calls.new }
{
    add_type(calls, shape)?;
    add_expr(calls, from)?;
    add_expr(calls, to)?;
    add_stmts(calls, body)
}

/// Adds the calls in a block.
#[cycle(stmt_calls)]
fn add_block(calls: &mut Calls, vars: &[VarDecl], body: &[Stmt], at: u32) -> Result<(), Memory>
    ensures { AddsCalls result (tree.block (vars_tree vars.now) (stmts_tree body.now) at)
        calls.old calls.new }
{
    add_vars(calls, vars)?;
    add_stmts(calls, body)
}

/// Adds the calls in statements in order.
#[cycle(stmt_calls)]
fn add_stmts(calls: &mut Calls, body: &[Stmt]) -> Result<(), Memory>
    ensures { AddsCalls result (stmts_tree body.now) calls.old calls.new }
{
    let mut rest = body;
    'stmts: while let Some((first, others)) = rest.split_first() {
        add_stmt(calls, first)?;
        rest = others;
    }
    Ok(())
}

/// Adds the calls in statements that may be missing.
#[cycle(stmt_calls)]
fn add_optional_stmts(calls: &mut Calls, body: &Option<Vec<Stmt>>) -> Result<(), Memory>
    ensures { AddsCalls result (body_tree body.now) calls.old calls.new }
{
    match body {
        Some(body) => add_stmts(calls, body),
        None => Ok(()),
    }
}

/// Adds the calls in a function.
pub(crate) fn add_function(calls: &mut Calls, f: &Function) -> Result<(), Memory>
    ensures { AddsCalls result (function_tree f.now) calls.old calls.new }
{
    add_formals(calls, &f.formals)?;
    add_type(calls, &f.result)?;
    add_vars(calls, &f.vars)?;
    add_expr(calls, &f.body)
}

/// Adds the calls in a procedure.
pub(crate) fn add_procedure(calls: &mut Calls, p: &Procedure) -> Result<(), Memory>
    ensures { AddsCalls result (procedure_tree p.now) calls.old calls.new }
{
    add_formals(calls, &p.formals)?;
    add_vars(calls, &p.vars)?;
    add_stmts(calls, &p.body)
}
