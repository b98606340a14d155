//! Variables that are declared inside.

ghost use Rattle.std.specs.Prelude.{◌≡◌, IfOk, map};
ghost use Rattle.cal_ast.specs.Tree.{listed};
ghost use Rattle.cal_ast.specs.View.{optional_expr, type_tree, var_tree};
ghost use Rattle.cal_model.specs.Kinding.{type_judged};
ghost use Rattle.cal_model.specs.Sound.{kind_of_judged};
ghost use Rattle.cal_model.specs.View.{kind_view};
ghost use Rattle.const_env.specs.Counting.{names_view};
ghost use Rattle.cal_check.specs.Written.{behind_vars, vars_written};
ghost use Rattle.check_fold.specs.Seeing.{seen_behind};
ghost use Rattle.check_fold.specs.Writing.{Declares, WritesOptional, WritesVar};

use crate::expression::expr;
use crate::types::type_expr;
use cal_ast::{Expr, TypeExpr, VarDecl};
use cal_model::{Kind, kind_of_type};
use const_eval::{Inside, KindFault, Names, Variable, Variables, type_judged};
use rvc_base::Memory;

/// Variables that are declared inside, and what stands behind them.
#[derive(Drop)]
pub struct DeclaredVars {
    /// The variables, with their sizes and bounds written out.
    pub vars: Vec<VarDecl>,
    /// The same, as what stands behind them sees them.
    pub behind: Variables,
}

/// Variables, each of which sees those before it.
///
/// # Errors
///
/// `Memory` if memory runs out.
pub fn vars(names: &Names, declared: &[VarDecl]) -> Result<DeclaredVars, Memory>
    ensures vars { IfOk result (λ found. listed (map var_tree found.vars.items)
        ≡ vars_written (listed (map var_tree declared.now)) (names_view names.now)) }
    ensures behind { IfOk result (λ found. seen_behind found.behind names.now
        ≡ behind_vars (listed (map var_tree declared.now)) (names_view names.now)) }
{
    let mut vars = Vec::new(names.alloc);
    let mut behind = Variables::new(names.alloc);
    let mut rest = declared;
    'each: while let Some((first, others)) = rest.split_first() {
        let v = var_behind(names, &behind, first)?;
        let variable = variable_behind(names, &behind, first)?;
        vars.push(v)?;
        behind.add(variable)?;
        rest = others;
    }
    Ok(DeclaredVars { vars, behind })
}

/// A variable that stands behind others.
fn var_behind(names: &Names, before: &Variables, v: &VarDecl) -> Result<VarDecl, Memory>
    ensures { WritesVar result (var_tree v.now) (seen_behind before.now names.now) }
{
    let inside = Inside {
        variables: Some(before),
        gens: &[],
        outer: names.inner,
    };
    var(&names.under(&inside), v)
}

/// A variable with its type and its start.
fn var(names: &Names, v: &VarDecl) -> Result<VarDecl, Memory>
    ensures { WritesVar result (var_tree v.now) (names_view names.now) }
{
    let shape = type_expr(names, &v.shape)?;
    let start = optional(names, &v.start)?;
    let name = v.name.copy(names.alloc)?;
    Ok(VarDecl {
        shape,
        name,
        start,
        changes: v.changes,
        at: v.at,
    })
}

/// An expression that may be missing.
fn optional(names: &Names, e: &Option<Expr>) -> Result<Option<Expr>, Memory>
    ensures { WritesOptional result (optional_expr e.now) (names_view names.now) }
{
    match e {
        Some(e) => Ok(Some(expr(names, e)?)),
        None => Ok(None),
    }
}

// ---- what is seen behind a variable

/// A variable that stands behind others, as what stands behind it sees it.
fn variable_behind(names: &Names, before: &Variables, v: &VarDecl) -> Result<Variable, Memory>
    ensures { Declares result (var_tree v.now) (seen_behind before.now names.now) }
{
    let inside = Inside {
        variables: Some(before),
        gens: &[],
        outer: names.inner,
    };
    variable(&names.under(&inside), v)
}

/// A variable as what stands behind it sees it. If its type breaks a rule, it is taken as a number.
///
/// # Errors
///
/// `Memory` if memory runs out.
pub fn variable(names: &Names, v: &VarDecl) -> Result<Variable, Memory>
    ensures { Declares result (var_tree v.now) (names_view names.now) }
{
    let kind = kind_of_declared(names, &v.shape)?;
    let name = v.name.text.clone()?;
    Ok(Variable {
        name,
        kind,
        changes: v.changes,
    })
}

/// The kind of what is declared with a type.
fn kind_of_declared(names: &Names, shape: &TypeExpr) -> Result<Kind, Memory>
    ensures { IfOk result (λ kind. kind_view kind
        ≡ kind_of_judged (type_judged (type_tree shape.now) (names_view names.now))) }
{
    match type_judged(names, shape) {
        Ok(t) => kind_of_type(names.alloc, &t),
        Err(KindFault::Broken { .. }) => Ok(Kind::Num),
        Err(KindFault::Memory) => Err(Memory),
    }
}
