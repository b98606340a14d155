//! Statements with their sizes and bounds written out, in one cycle.

ghost use Rattle.std.specs.Prelude.{map, string_bytes};
ghost use Rattle.cal_ast.specs.Tree as tree;
ghost use Rattle.cal_ast.specs.Tree.{listed};
ghost use Rattle.cal_ast.specs.View.{body_tree, expr_tree, ident_tree, stmt_tree, type_tree, var_tree};
ghost use Rattle.cal_check.specs.Written.{written};
ghost use Rattle.cal_model.specs.Kinding.{counter, with_known};
ghost use Rattle.const_env.specs.Counting.{names_view};
ghost use Rattle.check_fold.specs.Seeing.{seen_behind};
ghost use Rattle.check_fold.specs.Writing.{MakesStmt, WritesBody, WritesStmt, WritesStmts};

use crate::expression::{expr, exprs};
use crate::made_stmt as made;
use crate::types::type_expr;
use crate::var_decl::vars;
use cal_ast::{Expr, Ident, Stmt, StmtForm, TypeExpr, VarDecl};
use const_eval::{Inside, Names, Variables};
use rvc_base::Memory;

/// A statement.
#[cycle(stmt)]
fn stmt(names: &Names, s: &Stmt) -> Result<Stmt, Memory>
    ensures { WritesStmt result (stmt_tree s.now) (names_view names.now) }
{
    match &s.form {
        StmtForm::Assign {
            name,
            places,
            value,
        } => assign(names, name, places, value, s.at),
        StmtForm::Call { name, args } => call(names, name, args, s.at),
        StmtForm::If { test, yes, no } => if_stmt(names, test, yes, no, s.at),
        StmtForm::While { test, body } => while_stmt(names, test, body, s.at),
        StmtForm::Foreach {
            shape,
            name,
            from,
            to,
            body,
        } => foreach_stmt(names, shape, name, from, to, body, s.at),
        StmtForm::Block { vars, body } => block(names, vars, body, s.at),
    }
}

/// Statements in order.
///
/// # Errors
///
/// `Memory` if memory runs out.
#[cycle(stmt)]
pub fn stmts(names: &Names, body: &[Stmt]) -> Result<Vec<Stmt>, Memory>
    ensures { WritesStmts result (listed (map stmt_tree body.now)) (names_view names.now) }
{
    let mut found = Vec::new(names.alloc);
    let mut rest = body;
    'each: while let Some((first, others)) = rest.split_first() {
        found.push(stmt(names, first)?)?;
        rest = others;
    }
    Ok(found)
}

/// Statements that may be missing.
///
/// # Errors
///
/// `Memory` if memory runs out.
#[cycle(stmt)]
pub fn optional_stmts(names: &Names, body: &Option<Vec<Stmt>>) -> Result<Option<Vec<Stmt>>, Memory>
    ensures { WritesBody result (body_tree body.now) (names_view names.now) }
{
    match body {
        Some(body) => Ok(Some(stmts(names, body)?)),
        None => Ok(None),
    }
}

/// A condition and one or two branches.
#[cycle(stmt)]
fn if_stmt(
    names: &Names,
    test: &Expr,
    yes: &[Stmt],
    no: &Option<Vec<Stmt>>,
    at: u32,
) -> Result<Stmt, Memory>
    ensures { WritesStmt result
        (tree.if_stmt (expr_tree test.now) (listed (map stmt_tree yes.now)) (body_tree no.now) at)
        (names_view names.now) }
{
    let yes = stmts(names, yes)?;
    let no = optional_stmts(names, no)?;
    if_with(names, test, yes, no, at)
}

/// A loop over a condition.
#[cycle(stmt)]
fn while_stmt(names: &Names, test: &Expr, body: &[Stmt], at: u32) -> Result<Stmt, Memory>
    ensures { WritesStmt result
        (tree.while_stmt (expr_tree test.now) (listed (map stmt_tree body.now)) at)
        (names_view names.now) }
{
    let body = stmts(names, body)?;
    while_with(names, test, body, at)
}

/// A loop over a range, whose body sees its variable.
#[cycle(stmt)]
fn foreach_stmt(
    names: &Names,
    shape: &TypeExpr,
    name: &Ident,
    from: &Expr,
    to: &Expr,
    body: &[Stmt],
    at: u32,
) -> Result<Stmt, Memory>
    ensures { WritesStmt result
        (tree.foreach_stmt (type_tree shape.now) (ident_tree name.now) (expr_tree from.now)
        (expr_tree to.now) (listed (map stmt_tree body.now)) at)
        (names_view names.now) }
{
    let body = loop_body(names, name, body)?;
    foreach_with(names, shape, name, from, to, body, at)
}

/// The body of a loop over a range.
#[cycle(stmt)]
fn loop_body(names: &Names, name: &Ident, body: &[Stmt]) -> Result<Vec<Stmt>, Memory>
    ensures { WritesStmts result (listed (map stmt_tree body.now))
        (with_known (counter (string_bytes name.now.text)) (names_view names.now)) }
{
    let variables = Variables::of_counter(names.alloc, name.text.as_str())?;
    stmts_behind(names, &variables, body)
}

/// Statements that stand behind variables.
#[cycle(stmt)]
fn stmts_behind(names: &Names, variables: &Variables, body: &[Stmt]) -> Result<Vec<Stmt>, Memory>
    ensures { WritesStmts result (listed (map stmt_tree body.now))
        (seen_behind variables.now names.now) }
{
    let inside = Inside {
        variables: Some(variables),
        gens: &[],
        outer: names.inner,
    };
    stmts(&names.under(&inside), body)
}

/// A block, whose statements see its variables.
#[cycle(stmt)]
fn block(names: &Names, declared: &[VarDecl], body: &[Stmt], at: u32) -> Result<Stmt, Memory>
    ensures { WritesStmt result
        (tree.block (listed (map var_tree declared.now)) (listed (map stmt_tree body.now)) at)
        (names_view names.now) }
{
    let found = vars(names, declared)?;
    let body = stmts_behind(names, &found.behind, body)?;
    Ok(made::block(found.vars, body, at))
}

// ---- statements of statements that are written out

/// An assignment to a variable, or to a place in one.
fn assign(
    names: &Names,
    name: &Ident,
    places: &[Expr],
    value: &Expr,
    at: u32,
) -> Result<Stmt, Memory>
    ensures { WritesStmt result
        (tree.assign (ident_tree name.now) (listed (map expr_tree places.now)) (expr_tree value.now) at)
        (names_view names.now) }
{
    let places = exprs(names, places)?;
    let value = expr(names, value)?;
    let name = name.copy(names.alloc)?;
    Ok(made::assign(name, places, value, at))
}

/// A call of a procedure.
fn call(names: &Names, name: &Ident, args: &[Expr], at: u32) -> Result<Stmt, Memory>
    ensures { WritesStmt result (tree.call_stmt (ident_tree name.now) (listed (map expr_tree args.now)) at)
        (names_view names.now) }
{
    let args = exprs(names, args)?;
    let name = name.copy(names.alloc)?;
    Ok(made::call(name, args, at))
}

/// A condition, with branches that are written out.
fn if_with(
    names: &Names,
    test: &Expr,
    yes: Vec<Stmt>,
    no: Option<Vec<Stmt>>,
    at: u32,
) -> Result<Stmt, Memory>
    ensures { MakesStmt result (tree.if_stmt (written (expr_tree test.now) (names_view names.now))
        (listed (map stmt_tree yes.items)) (body_tree no) at) }
{
    let test = expr(names, test)?;
    Ok(made::if_stmt(test, yes, no, at))
}

/// A loop over a condition, with a body that is written out.
fn while_with(names: &Names, test: &Expr, body: Vec<Stmt>, at: u32) -> Result<Stmt, Memory>
    ensures { MakesStmt result (tree.while_stmt
        (written (expr_tree test.now) (names_view names.now)) (listed (map stmt_tree body.items)) at) }
{
    let test = expr(names, test)?;
    Ok(made::while_stmt(test, body, at))
}

/// A loop over a range, with a body that is written out.
fn foreach_with(
    names: &Names,
    shape: &TypeExpr,
    name: &Ident,
    from: &Expr,
    to: &Expr,
    body: Vec<Stmt>,
    at: u32,
) -> Result<Stmt, Memory>
    ensures { MakesStmt result (tree.foreach_stmt
        (written (type_tree shape.now) (names_view names.now)) (ident_tree name.now)
        (written (expr_tree from.now) (names_view names.now))
        (written (expr_tree to.now) (names_view names.now)) (listed (map stmt_tree body.items)) at) }
{
    let shape = type_expr(names, shape)?;
    let from = expr(names, from)?;
    let to = expr(names, to)?;
    let name = name.copy(names.alloc)?;
    Ok(made::foreach_stmt(shape, name, from, to, body, at))
}
