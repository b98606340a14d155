//! Functions and procedures.
#![tactic(auto, using(crate::proofs::Judged::breaks_on))]

ghost use Rattle.std.specs.Prelude.{◌≡◌, IfOk, map};
ghost use Rattle.cal_ast.specs.declared.expr.PrefixOp.TheVariants.{Not};
ghost use Rattle.cal_ast.specs.Tree as tree;
ghost use Rattle.cal_ast.specs.Tree.{listed};
ghost use Rattle.cal_ast.specs.View.{expr_tree, function_tree, procedure_tree, stmt_tree, var_tree};
ghost use Rattle.cal_check.specs.Routines.{first_met, fun_judged, locals_before, proc_judged};
ghost use Rattle.cal_check.specs.Statements.{names_behind};
ghost use Rattle.cal_model.specs.Sound.{with_locals};
ghost use Rattle.cal_model.specs.View.{fun_view, local_view, proc_view};
ghost use Rattle.const_env.specs.Counting.{names_view};
ghost use Rattle.const_env.specs.Judging.{Judges};
ghost use Rattle.check_fold.specs.Seeing.{seen_behind};
ghost use Rattle.check_fold.specs.Writing.{WritesExpr, WritesStmts};
ghost use Rattle.check_build_routine.specs.Declaring.{fun_behind, inside_body, inside_locals, proc_behind};

use crate::formal::{DeclaredFormals, formals, single_type};
use crate::local::locals;
use crate::untyped::up_to_untyped;
use cal_ast::{Expr, ExprForm, Function, PrefixOp, Procedure, Stmt, VarDecl};
use cal_model::{BoundFun, BoundLocal, BoundProc};
use check_fold::{expr, stmts};
use const_eval::{Inside, KindFault, Names, Variables};
use rvc_base::Memory;
use std::alloc::Global;

/// What stands inside a function.
#[derive(Drop)]
struct InsideFun {
    locals: Vec<BoundLocal>,
    body: Expr,
}

/// A function by the text that stands for it where it is used. If the type of one of its locals breaks a rule, it gives
/// nothing: evaluation meets that type, and comes no further.
///
/// # Errors
///
/// `Broken` if its head breaks a rule: the first one, and its place. `Memory` if memory runs out.
pub fn fun_of(names: &Names, full: &str, decl: &Function) -> Result<BoundFun, KindFault>
    ensures { Judges fun_view result
        (fun_judged full.now (function_tree decl.now) (names_view names.now)) }
{
    let head = formals(names, &decl.formals)?;
    fun_with(names, full, decl, head)
}

/// A function with these formals.
fn fun_with(
    names: &Names,
    full: &str,
    decl: &Function,
    head: DeclaredFormals,
) -> Result<BoundFun, KindFault>
    requires { seen_behind head.behind names.now
        ≡ with_locals (map local_view head.formals.items) (names_view names.now) }
    ensures { Judges fun_view result (fun_behind full.now (function_tree decl.now)
        (map local_view head.formals.items) (names_view names.now)) }
{
    let inside = Inside {
        variables: Some(&head.behind),
        gens: &[],
        outer: names.inner,
    };
    let here = names.under(&inside);
    let result = single_type(&here, &decl.result)?;
    let found = inside_fun(&here, decl)?;
    let name = String::from_str(names.alloc, full)?;
    Ok(BoundFun {
        name,
        formals: head.formals,
        locals: found.locals,
        result,
        body: found.body,
    })
}

/// The locals and the body of a function.
fn inside_fun(names: &Names, decl: &Function) -> Result<InsideFun, Memory>
    ensures locals { IfOk result (λ found. map local_view found.locals.items
        ≡ inside_locals (names_behind (listed (map var_tree decl.now.vars.items)) (names_view names.now))
        (listed (map var_tree decl.now.vars.items)) (names_view names.now)) }
    ensures body { IfOk result (λ found. expr_tree found.body
        ≡ inside_body (names_behind (listed (map var_tree decl.now.vars.items)) (names_view names.now))
        (listed (map var_tree decl.now.vars.items)) (expr_tree decl.now.body) (names_view names.now)) }
{
    let found = locals(names, &decl.vars)?;
    if !found.typed {
        return useless(names, &decl.vars);
    }
    let body = expr_behind(names, &found.behind, &decl.body)?;
    Ok(InsideFun {
        locals: found.locals,
        body,
    })
}

/// What stands for a function with a local whose type breaks a rule: the locals before it, and that type.
fn useless(names: &Names, vars: &[VarDecl]) -> Result<InsideFun, Memory>
    ensures locals { IfOk result (λ found. map local_view found.locals.items
        ≡ locals_before (listed (map var_tree vars.now)) (names_view names.now)) }
    ensures body { IfOk result (λ found. expr_tree found.body ≡ tree.prefix Not
        (tree.list (first_met (listed (map var_tree vars.now)) (names_view names.now)) 0) 0) }
{
    let found = up_to_untyped(names, vars)?;
    let body = clash(names.alloc, found.types)?;
    Ok(InsideFun {
        locals: found.locals,
        body,
    })
}

/// An expression that evaluates these, and then clashes.
fn clash(alloc: Global, items: Vec<Expr>) -> Result<Expr, Memory>
    ensures { IfOk result (λ e. expr_tree e
        ≡ tree.prefix Not (tree.list (listed (map expr_tree items.items)) 0) 0) }
{
    let list = Expr {
        form: ExprForm::List(items),
        at: 0,
    };
    let form = ExprForm::Prefix {
        op: PrefixOp::Not,
        of: Box::new(alloc, list)?,
    };
    Ok(Expr { form, at: 0 })
}

/// An expression that stands behind variables.
fn expr_behind(names: &Names, variables: &Variables, e: &Expr) -> Result<Expr, Memory>
    ensures { WritesExpr result (expr_tree e.now) (seen_behind variables.now names.now) }
{
    let inside = Inside {
        variables: Some(variables),
        gens: &[],
        outer: names.inner,
    };
    expr(&names.under(&inside), e)
}

// ---- procedures

/// A procedure.
///
/// # Errors
///
/// `Broken` if a formal breaks a rule: the first one, and its place. `Memory` if memory runs out.
pub fn proc_of(names: &Names, decl: &Procedure) -> Result<BoundProc, KindFault>
    ensures { Judges proc_view result (proc_judged (procedure_tree decl.now) (names_view names.now)) }
{
    let head = formals(names, &decl.formals)?;
    Ok(proc_with(names, decl, head)?)
}

/// A procedure with these formals.
fn proc_with(names: &Names, decl: &Procedure, head: DeclaredFormals) -> Result<BoundProc, Memory>
    requires { seen_behind head.behind names.now
        ≡ with_locals (map local_view head.formals.items) (names_view names.now) }
    ensures { IfOk result (λ p. proc_view p ≡ proc_behind (procedure_tree decl.now)
        (map local_view head.formals.items) (names_view names.now)) }
{
    let inside = Inside {
        variables: Some(&head.behind),
        gens: &[],
        outer: names.inner,
    };
    let here = names.under(&inside);
    let found = locals(&here, &decl.vars)?;
    let body = stmts_behind(&here, &found.behind, &decl.body)?;
    let name = decl.name.text.clone()?;
    Ok(BoundProc {
        name,
        formals: head.formals,
        locals: found.locals,
        body,
    })
}

/// Statements that stand behind variables.
fn stmts_behind(names: &Names, variables: &Variables, body: &[Stmt]) -> Result<Vec<Stmt>, Memory>
    ensures { WritesStmts result (listed (map stmt_tree body.now))
        (seen_behind variables.now names.now) }
{
    let inside = Inside {
        variables: Some(variables),
        gens: &[],
        outer: names.inner,
    };
    stmts(&names.under(&inside), body)
}
