//! What an actor keeps of the variables and functions to which its imports lead.

ghost use Rattle.std.specs.Prelude.{◌≡◌, ◌++◌, IfOk, OnOk, map};
ghost use Rattle.cal_check.specs.Actors.{kept_funs, kept_vars, outer_of_fun, outer_of_var, outers};
ghost use Rattle.cal_imports.specs.ScopeView.{outer_fun, outer_var};
ghost use Rattle.cal_model.specs.View.{fun_view, var_view};
ghost use Rattle.check_used.specs.Using.{Keeps, outer_view};
ghost use Rattle.check_actor.specs.Sources.{fun_of, source_in, var_of};

use cal_imports::{OuterFun, OuterVar, Scope};
use cal_model::{BoundFun, BoundVar};
use check_used::{OuterDecl, OuterForm, UsedNames, keep_funs, keep_vars, used_names};
use rvc_base::Memory;
use std::alloc::Global;

/// Adds the variables of other files.
fn add_vars<'a>(decls: &mut Vec<OuterDecl<'a>>, vars: &'a [OuterVar]) -> Result<(), Memory>
    ensures { OnOk result (map outer_view decls.new.items
        ≡ map outer_view decls.old.items ++ map outer_of_var (map var_of (map outer_var vars.entry.now))) }
{
    let mut rest = vars;
    'vars: while let Some((first, others)) = rest.split_first() {
        decls.push(OuterDecl {
            name: first.name.as_str(),
            form: OuterForm::Var(&first.decl),
        })?;
        rest = others;
    }
    Ok(())
}

/// Adds the functions of other files.
fn add_funs<'a>(decls: &mut Vec<OuterDecl<'a>>, funs: &'a [OuterFun]) -> Result<(), Memory>
    ensures { OnOk result (map outer_view decls.new.items
        ≡ map outer_view decls.old.items ++ map outer_of_fun (map fun_of (map outer_fun funs.entry.now))) }
{
    let mut rest = funs;
    'funs: while let Some((first, others)) = rest.split_first() {
        decls.push(OuterDecl {
            name: first.name.as_str(),
            form: OuterForm::Function(&first.decl),
        })?;
        rest = others;
    }
    Ok(())
}

/// What other files declare.
fn outer_decls<'a>(alloc: Global, scope: &'a Scope) -> Result<Vec<OuterDecl<'a>>, Memory>
    ensures { IfOk result (λ decls. map outer_view decls.items ≡ outers (source_in scope.entry.now)) }
{
    let mut decls = Vec::new(alloc);
    add_vars(&mut decls, &scope.vars)?;
    add_funs(&mut decls, &scope.funs)?;
    Ok(decls)
}

/// The names that an actor keeps.
fn kept_names(alloc: Global, scope: &Scope) -> Result<UsedNames, Memory>
    ensures { IfOk result (λ kept. Keeps kept (source_in scope.now)) }
{
    let decls = outer_decls(alloc, scope)?;
    used_names(alloc, &scope.actor, &decls)
}

/// Leaves out the variables and functions of other files that an actor doesn't use.
pub(crate) fn keep_used(
    alloc: Global,
    scope: &Scope,
    vars: &mut Vec<BoundVar>,
    funs: &mut Vec<BoundFun>,
) -> Result<(), Memory>
    ensures vars { OnOk result (map var_view vars.new.items
        ≡ kept_vars (map var_view vars.old.items) (source_in scope.now)) }
    ensures funs { OnOk result (map fun_view funs.new.items
        ≡ kept_funs (map fun_view funs.old.items) (source_in scope.now)) }
{
    let used = kept_names(alloc, scope)?;
    keep_vars(&used, vars);
    keep_funs(&used, funs);
    Ok(())
}
