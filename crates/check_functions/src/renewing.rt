//! Functions that are judged anew once more names are known.

ghost use Rattle.std.specs.Prelude.{◌≡◌, IfOk, OnOk, Some, slice_get, true};
ghost use Rattle.cal_ast.specs.View.{function_tree};
ghost use Rattle.cal_check.specs.Routines.{fun_judged};
ghost use Rattle.cal_model.specs.View.{fun_view};
ghost use Rattle.const_env.specs.Held.{names_in};
ghost use Rattle.const_env.specs.Judging.{Judges};
ghost use Rattle.check_functions.specs.Known.{fun_decls};
ghost use Rattle.check_functions.specs.Left.{Leaves, renewed, renewed_at, renewed_by};

use crate::declared::DeclaredFun;
use cal_model::{BoundFun, types_are_kept};
use check_build_routine::fun_of;
use const_eval::{Env, KindFault, Names};
use indexmap::IndexSet;
use rvc_base::Memory;
use std::alloc::Global;

/// A function as it is over these names and functions.
pub(crate) fn judged_over(alloc: Global, env: &Env, f: DeclaredFun) -> Result<BoundFun, KindFault>
    ensures { Judges fun_view result (fun_judged f.entry.name.now
        (function_tree f.entry.decl.now) (names_in env.now)) }
{
    let names = Names::outermost(alloc, env);
    fun_of(&names, f.name, f.decl)
}

/// Judges a function over these names and functions, and puts it in the place of the one of its name. Tells whether that
/// can be done: not if its head breaks a rule now, and didn't before.
fn renew_fun(env: &mut Env, alloc: Global, f: DeclaredFun) -> Result<bool, Memory>
    ensures { IfOk result (λ fits. fits ≡ true → renewed_by f.entry.name.now
        (fun_judged f.entry.name.now (function_tree f.entry.decl.now) (names_in env.old))
        (names_in env.old) ≡ Some (names_in env.new)) }
{
    types_are_kept();
    match judged_over(alloc, env, f) {
        Ok(fun) => {
            env.set_fun(fun)?;
            Ok(true)
        }
        Err(KindFault::Broken { .. }) => Ok(!env.has_fun(f.name)),
        Err(KindFault::Memory) => Err(Memory),
    }
}

/// The same for the function at a place.
fn renew_at(
    env: &mut Env,
    alloc: Global,
    place: usize,
    funs: &[DeclaredFun],
) -> Result<bool, Memory>
    ensures { IfOk result (λ fits. fits ≡ true
        → renewed_at (slice_get (fun_decls funs.now) place) (names_in env.old)
        ≡ Some (names_in env.new)) }
{
    match funs.get(place) {
        Some(f) => renew_fun(env, alloc, *f),
        None => Ok(true),
    }
}

/// The same for those at these places, one after the other.
pub(crate) fn renew_each(
    env: &mut Env,
    alloc: Global,
    places: &[usize],
    funs: &[DeclaredFun],
) -> Result<bool, Memory>
    ensures { IfOk result (λ fits. fits ≡ true
        → renewed places.now (fun_decls funs.now) (names_in env.old) ≡ Some (names_in env.new)) }
{
    let mut rest = places;
    'places: while let Some((first, others)) = rest.split_first() {
        if !renew_at(env, alloc, *first, funs)? {
            return Ok(false);
        }
        rest = others;
    }
    Ok(true)
}

/// Places are left to be judged anew, each once.
pub(crate) fn leave(left: &mut IndexSet<usize>, places: &[usize]) -> Result<(), Memory>
    ensures { OnOk result (Leaves places.now left.old.keys left.new.keys) }
{
    let mut rest = places;
    'places: while let Some((first, others)) = rest.split_first() {
        let (_number, _is_new) = left.insert_full(*first)?;
        rest = others;
    }
    Ok(())
}
