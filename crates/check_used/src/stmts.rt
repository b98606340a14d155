//! The names that statements, variables, functions and procedures use.

ghost use Rattle.cal_ast.specs.Tree as tree;
ghost use Rattle.cal_ast.specs.View.{body_tree, expr_tree, function_tree, ident_tree, procedure_tree, stmt_tree, var_tree};
ghost use Rattle.check_used.specs.Naming.{AddsNames, assign_tree, exprs_tree, foreach_tree, if_stmt_tree, ports_tree, stmts_tree, vars_tree};

use crate::exprs::{add_expr, add_exprs, add_optional, add_type};
use crate::name_set::NameSet;
use cal_ast::{Expr, Function, Ident, PortDecl, Procedure, Stmt, StmtForm, TypeExpr, VarDecl};
use rvc_base::Memory;

/// Adds the names in a variable.
pub(crate) fn add_var(names: &mut NameSet, v: &VarDecl) -> Result<(), Memory>
    ensures { AddsNames result (var_tree v.now) names.old names.new }
{
    add_type(names, &v.shape)?;
    add_optional(names, &v.start)
}

/// Adds the names in variables in order.
pub(crate) fn add_vars(names: &mut NameSet, vars: &[VarDecl]) -> Result<(), Memory>
    ensures { AddsNames result (vars_tree vars.now) names.old names.new }
{
    let mut rest = vars;
    'vars: while let Some((first, others)) = rest.split_first() {
        add_var(names, first)?;
        rest = others;
    }
    Ok(())
}

/// Adds the names in the types of ports or formals.
pub(crate) fn add_ports(names: &mut NameSet, ports: &[PortDecl]) -> Result<(), Memory>
    ensures { AddsNames result (ports_tree ports.now) names.old names.new }
{
    let mut rest = ports;
    'ports: while let Some((first, others)) = rest.split_first() {
        add_type(names, &first.shape)?;
        rest = others;
    }
    Ok(())
}

/// Adds the names in an assignment.
fn add_assign(
    names: &mut NameSet,
    name: &Ident,
    places: &[Expr],
    value: &Expr,
    at: u32,
) -> Result<(), Memory>
    ensures { AddsNames result (assign_tree name.now places.now value.now at) names.old names.new }
{
    names.add(name.text.as_str())?;
    add_exprs(names, places)?;
    add_expr(names, value)
}

/// Adds the names in the arguments of a procedure that is called.
fn add_procedure_call(
    names: &mut NameSet,
    name: &Ident,
    args: &[Expr],
    at: u32,
) -> Result<(), Memory>
    ensures { AddsNames result (tree.call_stmt (ident_tree name.now) (exprs_tree args.now) at)
        names.old names.new }
{
    add_exprs(names, args)
}

/// Adds the names in a statement.
#[cycle(names_in)]
fn add_stmt(names: &mut NameSet, s: &Stmt) -> Result<(), Memory>
    ensures { AddsNames result (stmt_tree s.now) names.old names.new }
{
    match &s.form {
        StmtForm::Assign {
            name,
            places,
            value,
        } => add_assign(names, name, places, value, s.at),
        StmtForm::Call { name, args } => add_procedure_call(names, name, args, s.at),
        StmtForm::If { test, yes, no } => add_if(names, test, yes, no, s.at),
        StmtForm::While { test, body } => add_while(names, test, body, s.at),
        StmtForm::Foreach {
            shape,
            name,
            from,
            to,
            body,
        } => add_foreach(names, shape, name, from, to, body, s.at),
        StmtForm::Block { vars, body } => add_block(names, vars, body, s.at),
    }
}

/// Adds the names in a condition and one or two branches.
#[cycle(names_in)]
fn add_if(
    names: &mut NameSet,
    test: &Expr,
    yes: &[Stmt],
    no: &Option<Vec<Stmt>>,
    at: u32,
) -> Result<(), Memory>
    ensures { AddsNames result (if_stmt_tree test.now yes.now no.now at) names.old names.new }
{
    add_expr(names, test)?;
    add_stmts(names, yes)?;
    add_optional_stmts(names, no)
}

/// Adds the names in a loop over a condition.
#[cycle(names_in)]
fn add_while(names: &mut NameSet, test: &Expr, body: &[Stmt], at: u32) -> Result<(), Memory>
    ensures { AddsNames result (tree.while_stmt (expr_tree test.now) (stmts_tree body.now) at)
        names.old names.new }
{
    add_expr(names, test)?;
    add_stmts(names, body)
}

/// Adds the names in a loop over a range.
#[cycle(names_in)]
fn add_foreach(
    names: &mut NameSet,
    shape: &TypeExpr,
    name: &Ident,
    from: &Expr,
    to: &Expr,
    body: &[Stmt],
    at: u32,
) -> Result<(), Memory>
    ensures { AddsNames result (foreach_tree shape.now name.now from.now to.now body.now at)
        names.old names.new }
{
    add_type(names, shape)?;
    add_expr(names, from)?;
    add_expr(names, to)?;
    add_stmts(names, body)
}

/// Adds the names in a block.
#[cycle(names_in)]
fn add_block(names: &mut NameSet, vars: &[VarDecl], body: &[Stmt], at: u32) -> Result<(), Memory>
    ensures { AddsNames result (tree.block (vars_tree vars.now) (stmts_tree body.now) at)
        names.old names.new }
{
    add_vars(names, vars)?;
    add_stmts(names, body)
}

/// Adds the names in statements in order.
#[cycle(names_in)]
fn add_stmts(names: &mut NameSet, body: &[Stmt]) -> Result<(), Memory>
    ensures { AddsNames result (stmts_tree body.now) names.old names.new }
{
    let mut rest = body;
    'stmts: while let Some((first, others)) = rest.split_first() {
        add_stmt(names, first)?;
        rest = others;
    }
    Ok(())
}

/// Adds the names in statements that may be missing.
#[cycle(names_in)]
pub(crate) fn add_optional_stmts(
    names: &mut NameSet,
    body: &Option<Vec<Stmt>>,
) -> Result<(), Memory>
    ensures { AddsNames result (body_tree body.now) names.old names.new }
{
    match body {
        Some(body) => add_stmts(names, body),
        None => Ok(()),
    }
}

/// Adds the names in a function.
pub(crate) fn add_function(names: &mut NameSet, f: &Function) -> Result<(), Memory>
    ensures { AddsNames result (function_tree f.now) names.old names.new }
{
    add_ports(names, &f.formals)?;
    add_type(names, &f.result)?;
    add_vars(names, &f.vars)?;
    add_expr(names, &f.body)
}

/// Adds the names in a procedure.
pub(crate) fn add_procedure(names: &mut NameSet, p: &Procedure) -> Result<(), Memory>
    ensures { AddsNames result (procedure_tree p.now) names.old names.new }
{
    add_ports(names, &p.formals)?;
    add_vars(names, &p.vars)?;
    add_stmts(names, &p.body)
}
