//! Statements, in one cycle. Each call passes over what isn't constant if it is told so.
#![tactic(auto, using(crate::proofs::Said::said_none, crate::proofs::Said::said_on, crate::proofs::Said::said_behind, crate::proofs::Said::said_next))]

ghost use Rattle.std.specs.Prelude.{◌++◌, map, string_bytes};
ghost use Rattle.cal_ast.specs.Tree.{listed};
ghost use Rattle.cal_ast.specs.View.{body_tree, expr_tree, stmt_tree, type_tree, var_tree};
ghost use Rattle.cal_model.specs.Kinding.{counter, with_known};
ghost use Rattle.cal_model.specs.Value.{NumKind};
ghost use Rattle.cal_model.specs.View.{proc_view};
ghost use Rattle.const_env.specs.Counting.{names_view};
ghost use Rattle.cal_check.specs.Constants.{stored_kind};
ghost use Rattle.cal_check.specs.Statements.{counter_judged, statement_broken, test_judged};
ghost use Rattle.cal_check.specs.Violations.{broken, said};
ghost use Rattle.check_stmt.specs.Declaring.{block_broken, range_broken, seen_behind};
ghost use Rattle.check_stmt.specs.Judging.{Checks};

use crate::assign::assign;
use crate::inner_vars::check_vars;
use crate::part::{counter, number, test};
use crate::proc_call::call;
use crate::procs::Procs;
use cal_ast::{Expr, Ident, Stmt, StmtForm, TypeExpr, VarDecl};
use const_eval::{Inside, KindFault, Names, Variables};

/// A statement.
#[cycle(stmt)]
fn stmt(names: &Names, procs: &Procs, s: &Stmt, passes: bool) -> Result<(), KindFault>
    ensures { Checks result
        (said passes (statement_broken (stmt_tree s.now) (map proc_view procs.now) (names_view names.now))) }
{
    match &s.form {
        StmtForm::Assign {
            name,
            places,
            value,
        } => assign(names, name, places, value, s.at, passes),
        StmtForm::Call { name, args } => {
            call(names, procs, name.text.as_str(), args, s.at, passes)
        }
        StmtForm::If { test, yes, no } => if_stmt(names, procs, test, yes, no, passes),
        StmtForm::While { test, body } => while_stmt(names, procs, test, body, passes),
        StmtForm::Foreach {
            shape,
            name,
            from,
            to,
            body,
        } => foreach_stmt(names, procs, shape, name, from, to, body, passes),
        StmtForm::Block { vars, body } => block(names, procs, vars, body, passes),
    }
}

/// Statements, each of which is judged by itself. What isn't constant is passed over if `passes`.
///
/// # Errors
///
/// `Broken` if a statement breaks a rule: one of those that are broken, and its place. `Memory` if memory runs out.
#[cycle(stmt)]
pub fn stmts(names: &Names, procs: &Procs, body: &[Stmt], passes: bool) -> Result<(), KindFault>
    ensures { Checks result (said passes (statement_broken (listed (map stmt_tree body.now))
        (map proc_view procs.now) (names_view names.now))) }
{
    let mut rest = body;
    'stmts: while let Some((first, others)) = rest.split_first() {
        stmt(names, procs, first, passes)?;
        rest = others;
    }
    Ok(())
}

/// Statements that may be missing. What isn't constant is passed over if `passes`.
#[cycle(stmt)]
pub fn optional_stmts(
    names: &Names,
    procs: &Procs,
    body: &Option<Vec<Stmt>>,
    passes: bool,
) -> Result<(), KindFault>
    ensures { Checks result (said passes (statement_broken (body_tree body.now) (map proc_view procs.now)
        (names_view names.now))) }
{
    match body {
        Some(body) => stmts(names, procs, body, passes),
        None => Ok(()),
    }
}

/// A condition and one or two branches.
#[cycle(stmt)]
fn if_stmt(
    names: &Names,
    procs: &Procs,
    e: &Expr,
    yes: &[Stmt],
    no: &Option<Vec<Stmt>>,
    passes: bool,
) -> Result<(), KindFault>
    ensures { Checks result (said passes (broken (test_judged (expr_tree e.now) (names_view names.now))
        ++ (statement_broken (listed (map stmt_tree yes.now)) (map proc_view procs.now)
        (names_view names.now)
        ++ statement_broken (body_tree no.now) (map proc_view procs.now) (names_view names.now)))) }
{
    test(names, e, passes)?;
    branches(names, procs, yes, no, passes)
}

/// One or two branches.
#[cycle(stmt)]
fn branches(
    names: &Names,
    procs: &Procs,
    yes: &[Stmt],
    no: &Option<Vec<Stmt>>,
    passes: bool,
) -> Result<(), KindFault>
    ensures { Checks result (said passes (statement_broken (listed (map stmt_tree yes.now))
        (map proc_view procs.now) (names_view names.now)
        ++ statement_broken (body_tree no.now) (map proc_view procs.now) (names_view names.now))) }
{
    stmts(names, procs, yes, passes)?;
    optional_stmts(names, procs, no, passes)
}

/// A loop over a condition.
#[cycle(stmt)]
fn while_stmt(
    names: &Names,
    procs: &Procs,
    e: &Expr,
    body: &[Stmt],
    passes: bool,
) -> Result<(), KindFault>
    ensures { Checks result (said passes (broken (test_judged (expr_tree e.now) (names_view names.now))
        ++ statement_broken (listed (map stmt_tree body.now)) (map proc_view procs.now)
        (names_view names.now))) }
{
    test(names, e, passes)?;
    stmts(names, procs, body, passes)
}

/// A loop over a range, whose body sees its variable.
#[cycle(stmt)]
fn foreach_stmt(
    names: &Names,
    procs: &Procs,
    shape: &TypeExpr,
    name: &Ident,
    from: &Expr,
    to: &Expr,
    body: &[Stmt],
    passes: bool,
) -> Result<(), KindFault>
    ensures { Checks result (said passes (range_broken (type_tree shape.now) (expr_tree from.now)
        (expr_tree to.now) (names_view names.now)
        (statement_broken (listed (map stmt_tree body.now)) (map proc_view procs.now)
        (with_known (counter (string_bytes name.now.text)) (names_view names.now))))) }
{
    range(names, shape, from, to, passes)?;
    let variables = Variables::of_counter(names.alloc, name.text.as_str())?;
    behind(names, procs, &variables, body, passes)
}

/// Statements that stand behind variables.
#[cycle(stmt)]
fn behind(
    names: &Names,
    procs: &Procs,
    variables: &Variables,
    body: &[Stmt],
    passes: bool,
) -> Result<(), KindFault>
    ensures { Checks result (said passes (statement_broken (listed (map stmt_tree body.now))
        (map proc_view procs.now) (seen_behind variables.now names.now))) }
{
    let inside = Inside {
        variables: Some(variables),
        gens: &[],
        outer: names.inner,
    };
    stmts(&names.under(&inside), procs, body, passes)
}

/// Variables, and statements that see them. What isn't constant is passed over if `passes`.
///
/// # Errors
///
/// `Broken` if a variable or a statement breaks a rule: one of those that are broken, and its place. `Memory` if memory
/// runs out.
#[cycle(stmt)]
pub fn block(
    names: &Names,
    procs: &Procs,
    declared: &[VarDecl],
    body: &[Stmt],
    passes: bool,
) -> Result<(), KindFault>
    ensures { Checks result (said passes
        (block_broken (listed (map var_tree declared.now)) (listed (map stmt_tree body.now))
        (map proc_view procs.now) (names_view names.now))) }
{
    let Some(variables) = check_vars(names, declared, passes)? else {
        return Ok(());
    };
    behind(names, procs, &variables, body, passes)
}

/// The type of a loop's variable, and the ends of its range.
fn range(
    names: &Names,
    shape: &TypeExpr,
    from: &Expr,
    to: &Expr,
    passes: bool,
) -> Result<(), KindFault>
    ensures { Checks result (said passes (broken (counter_judged (type_tree shape.now) (names_view names.now))
        ++ (broken (stored_kind NumKind (expr_tree from.now) (names_view names.now))
        ++ broken (stored_kind NumKind (expr_tree to.now) (names_view names.now))))) }
{
    counter(names, shape, passes)?;
    ends(names, from, to, passes)
}

/// The ends of a range.
fn ends(names: &Names, from: &Expr, to: &Expr, passes: bool) -> Result<(), KindFault>
    ensures { Checks result (said passes (broken (stored_kind NumKind (expr_tree from.now) (names_view names.now))
        ++ broken (stored_kind NumKind (expr_tree to.now) (names_view names.now)))) }
{
    number(names, from, passes)?;
    number(names, to, passes)
}
