//! Statements with each name written out in full, in one cycle.
#![tactic(auto, using(crate::proofs::Judged::breaks_on))]

ghost use Rattle.std.specs.Prelude.{[], ◌∷◌, string_bytes};
ghost use Rattle.cal_ast.specs.Tree as tree;
ghost use Rattle.cal_ast.specs.View.{body_tree, expr_tree, ident_tree, stmt_tree};
ghost use Rattle.cal_scope.specs.Asked.{assign_tree, exprs_tree, foreach_tree, if_stmt_tree, stmts_tree, vars_tree};
ghost use Rattle.cal_scope.specs.Judging.{Judges};
ghost use Rattle.cal_scope.specs.Names.{within};
ghost use Rattle.cal_scope.specs.Resolving.{ResolvesStmt, ResolvesStmts};
ghost use Rattle.cal_scope.specs.Statements.{else_resolved};
ghost use Rattle.cal_scope.specs.View.{names_view, seen_in};

use crate::expr::{expr, exprs, type_expr};
use crate::fault::ScopeFault;
use crate::frames::{Frame, Inside};
use crate::made_stmt as made;
use crate::name_set::NameSet;
use crate::role::Role;
use crate::vars::vars;
use cal_ast::{Expr, Ident, Stmt, StmtForm, TypeExpr, VarDecl};

/// A statement.
#[cycle(stmt)]
pub(crate) fn stmt(names: &Inside, s: &Stmt) -> Result<Stmt, ScopeFault>
    ensures { ResolvesStmt result (stmt_tree s.now) (names_view names.now) }
{
    match &s.form {
        StmtForm::Assign {
            name,
            places,
            value,
        } => assign(names, name, places, value, s.at),
        StmtForm::Call { name, args } => call(names, name, args, s.at),
        StmtForm::If { test, yes, no } => if_stmt(names, test, yes, no, s.at),
        StmtForm::While { test, body } => while_stmt(names, test, body, s.at),
        StmtForm::Foreach {
            shape,
            name,
            from,
            to,
            body,
        } => foreach_stmt(names, shape, name, from, to, body, s.at),
        StmtForm::Block { vars, body } => block(names, vars, body, s.at),
    }
}

/// An assignment to a variable, or to a place in one.
fn assign(
    names: &Inside,
    name: &Ident,
    places: &[Expr],
    value: &Expr,
    at: u32,
) -> Result<Stmt, ScopeFault>
    ensures { ResolvesStmt result (assign_tree name.now places.now value.now at) (names_view
        names.now) }
{
    let full = names.full_name(Role::Variable, name.text.as_str(), name.at)?;
    let places = exprs(names, places)?;
    let value = expr(names, value)?;
    let name = Ident {
        text: full,
        at: name.at,
    };
    Ok(made::assign(name, places, value, at))
}

/// A call of a procedure.
fn call(names: &Inside, name: &Ident, args: &[Expr], at: u32) -> Result<Stmt, ScopeFault>
    ensures { ResolvesStmt result (tree.call_stmt (ident_tree name.now) (exprs_tree args.now) at)
        (names_view names.now) }
{
    let full = names.full_name(Role::Procedure, name.text.as_str(), name.at)?;
    let args = exprs(names, args)?;
    let name = Ident {
        text: full,
        at: name.at,
    };
    Ok(made::call(name, args, at))
}

/// A condition and one or two branches.
#[cycle(stmt)]
fn if_stmt(
    names: &Inside,
    test: &Expr,
    yes: &[Stmt],
    no: &Option<Vec<Stmt>>,
    at: u32,
) -> Result<Stmt, ScopeFault>
    ensures { ResolvesStmt result (if_stmt_tree test.now yes.now no.now at) (names_view names.now) }
{
    let test = expr(names, test)?;
    let yes = stmts(names, yes)?;
    let no = optional_stmts(names, no)?;
    Ok(made::if_stmt(test, yes, no, at))
}

/// A loop over a condition.
#[cycle(stmt)]
fn while_stmt(names: &Inside, test: &Expr, body: &[Stmt], at: u32) -> Result<Stmt, ScopeFault>
    ensures { ResolvesStmt result (tree.while_stmt (expr_tree test.now) (stmts_tree body.now) at)
        (names_view names.now) }
{
    let test = expr(names, test)?;
    let body = stmts(names, body)?;
    Ok(made::while_stmt(test, body, at))
}

/// A loop over a range, whose body sees its variable.
#[cycle(stmt)]
fn foreach_stmt(
    names: &Inside,
    shape: &TypeExpr,
    name: &Ident,
    from: &Expr,
    to: &Expr,
    body: &[Stmt],
    at: u32,
) -> Result<Stmt, ScopeFault>
    ensures { ResolvesStmt result (foreach_tree shape.now name.now from.now to.now body.now at)
        (names_view names.now) }
{
    let shape = type_expr(names, shape)?;
    let from = expr(names, from)?;
    let to = expr(names, to)?;
    let body = loop_body(names, name, body)?;
    let name = name.copy(names.alloc)?;
    Ok(made::foreach_stmt(shape, name, from, to, body, at))
}

/// The body of a loop over a range.
#[cycle(stmt)]
fn loop_body(names: &Inside, name: &Ident, body: &[Stmt]) -> Result<Vec<Stmt>, ScopeFault>
    ensures { ResolvesStmts result (stmts_tree body.now) (within (string_bytes name.now.text ∷ [])
        (names_view names.now)) }
{
    let mut here = NameSet::new(names.alloc);
    here.add(name.text.as_str())?;
    stmts_in(names, &here, body)
}

/// Statements inside a scope.
#[cycle(stmt)]
pub(crate) fn stmts_in(
    names: &Inside,
    here: &NameSet,
    body: &[Stmt],
) -> Result<Vec<Stmt>, ScopeFault>
    ensures { ResolvesStmts result (stmts_tree body.now) (seen_in here.now names.now) }
{
    let frame = Frame {
        names: here,
        outer: names.frame,
    };
    let inside = names.under(&frame);
    stmts(&inside, body)
}

/// A block, whose statements see its variables.
#[cycle(stmt)]
fn block(names: &Inside, locals: &[VarDecl], body: &[Stmt], at: u32) -> Result<Stmt, ScopeFault>
    ensures { ResolvesStmt result (tree.block (vars_tree locals.now) (stmts_tree body.now) at)
        (names_view names.now) }
{
    let mut here = NameSet::new(names.alloc);
    let locals = vars(names, locals, &mut here)?;
    let body = stmts_in(names, &here, body)?;
    Ok(made::block(locals, body, at))
}

/// Statements in order.
#[cycle(stmt)]
pub(crate) fn stmts(names: &Inside, body: &[Stmt]) -> Result<Vec<Stmt>, ScopeFault>
    ensures { ResolvesStmts result (stmts_tree body.now) (names_view names.now) }
{
    let mut found = Vec::new(names.alloc);
    for s in body {
        found.push(stmt(names, s)?)?;
    }
    Ok(found)
}

/// Statements that may be missing.
#[cycle(stmt)]
pub(crate) fn optional_stmts(
    names: &Inside,
    body: &Option<Vec<Stmt>>,
) -> Result<Option<Vec<Stmt>>, ScopeFault>
    ensures { Judges body_tree result (else_resolved (body_tree body.now) (names_view names.now)) }
{
    match body {
        Some(body) => Ok(Some(stmts(names, body)?)),
        None => Ok(None),
    }
}
