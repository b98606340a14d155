//! What an actor and the files to which its imports lead declare.

ghost use Rattle.std.specs.Prelude.{◌≡◌, ◌++◌, IfOk, OnOk, map};
ghost use Rattle.cal_ast.specs.View.{actor_tree};
ghost use Rattle.cal_check.specs.Actors.{all_funs, members_of, params_in, params_of, vars_in};
ghost use Rattle.cal_imports.specs.ScopeView.{outer_fun, outer_var};
ghost use Rattle.check_functions.specs.Known.{fun_decls};
ghost use Rattle.check_variable.specs.Views.{var_decls};
ghost use Rattle.check_actor.specs.Sources.{fun_of, source_in, var_of};

use cal_imports::{OuterFun, OuterVar, Scope};
use check_functions::DeclaredFun;
use check_variable::{DeclaredVar, add_functions, add_parameters, add_variables};
use rvc_base::Memory;
use std::alloc::Global;

/// Adds the variables of other files.
fn add_outer_vars<'a>(
    declared: &mut Vec<DeclaredVar<'a>>,
    vars: &'a [OuterVar],
) -> Result<(), Memory>
    ensures { OnOk result (var_decls declared.new.items
        ≡ var_decls declared.old.items ++ map var_of (map outer_var vars.entry.now)) }
{
    let mut rest = vars;
    'vars: while let Some((first, others)) = rest.split_first() {
        declared.push(DeclaredVar {
            name: first.name.as_str(),
            file: first.file,
            shape: &first.decl.shape,
            start: &first.decl.start,
            changes: false,
            is_param: false,
        })?;
        rest = others;
    }
    Ok(())
}

/// Adds the functions of other files.
fn add_outer_funs<'a>(
    declared: &mut Vec<DeclaredFun<'a>>,
    funs: &'a [OuterFun],
) -> Result<(), Memory>
    ensures { OnOk result (fun_decls declared.new.items
        ≡ fun_decls declared.old.items ++ map fun_of (map outer_fun funs.entry.now)) }
{
    let mut rest = funs;
    'funs: while let Some((first, others)) = rest.split_first() {
        declared.push(DeclaredFun {
            name: first.name.as_str(),
            file: first.file,
            decl: &first.decl,
        })?;
        rest = others;
    }
    Ok(())
}

/// The variables of other files, and the parameters, in the order in which they get their values.
///
/// # Errors
///
/// `Memory` if memory runs out.
pub fn declared_before<'a>(alloc: Global, scope: &'a Scope) -> Result<Vec<DeclaredVar<'a>>, Memory>
    ensures { IfOk result (λ vars. var_decls vars.items ≡ (source_in scope.entry.now).vars
        ++ params_in scope.entry.now.file (params_of (actor_tree scope.entry.now.actor))) }
{
    let mut declared = Vec::new(alloc);
    add_outer_vars(&mut declared, &scope.vars)?;
    add_parameters(&mut declared, scope.file, &scope.actor.params)?;
    Ok(declared)
}

/// The parameters, in the order of the text.
///
/// # Errors
///
/// `Memory` if memory runs out.
pub fn declared_params<'a>(alloc: Global, scope: &'a Scope) -> Result<Vec<DeclaredVar<'a>>, Memory>
    ensures { IfOk result (λ vars. var_decls vars.items
        ≡ params_in scope.entry.now.file (params_of (actor_tree scope.entry.now.actor))) }
{
    let mut declared = Vec::new(alloc);
    add_parameters(&mut declared, scope.file, &scope.actor.params)?;
    Ok(declared)
}

/// The actor's own variables, in the order of the text.
///
/// # Errors
///
/// `Memory` if memory runs out.
pub fn declared_own<'a>(alloc: Global, scope: &'a Scope) -> Result<Vec<DeclaredVar<'a>>, Memory>
    ensures { IfOk result (λ vars. var_decls vars.items
        ≡ vars_in scope.entry.now.file (members_of (actor_tree scope.entry.now.actor))) }
{
    let mut declared = Vec::new(alloc);
    add_variables(&mut declared, scope.file, &scope.actor.members)?;
    Ok(declared)
}

/// The functions of other files, and then the actor's own.
///
/// # Errors
///
/// `Memory` if memory runs out.
pub fn declared_funs<'a>(alloc: Global, scope: &'a Scope) -> Result<Vec<DeclaredFun<'a>>, Memory>
    ensures { IfOk result (λ funs. fun_decls funs.items ≡ all_funs (source_in scope.entry.now)) }
{
    let mut declared = Vec::new(alloc);
    add_outer_funs(&mut declared, &scope.funs)?;
    add_functions(&mut declared, scope.file, &scope.actor.members)?;
    Ok(declared)
}
