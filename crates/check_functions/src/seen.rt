//! Names with all functions that are seen over them.

ghost use Rattle.std.specs.Prelude.{◌≡◌, ◌++◌, [], IfOk, OnOk, false, map, slice_get, true};
ghost use Rattle.cal_ast.specs.View.{function_tree};
ghost use Rattle.cal_check.specs.Actors.{at_rest};
ghost use Rattle.cal_check.specs.Routines.{fun_judged, funs_over, with_fun};
ghost use Rattle.cal_check.specs.Variables.{seen};
ghost use Rattle.const_env.specs.Constants.{has_fun};
ghost use Rattle.const_env.specs.Counting.{names_view};
ghost use Rattle.const_env.specs.Held.{globals_of, held, last_first, names_in};
ghost use Rattle.check_functions.specs.Known.{all_known, fun_decls, known_at, names_differ};
ghost use Rattle.check_functions.specs.Order.{AreOrdered, IsOrderOf, laid, laid_at, laid_by, laid_named};

use crate::declared::DeclaredFun;
use crate::known::{KnownName, names_without};
use crate::order::{Order, order_of};
use crate::renewing::judged_over;
use cal_model::types_are_kept;
use check_build_routine::fun_of;
use const_eval::{Env, KindFault, Names};
use rvc_base::Memory;
use std::alloc::Global;

/// Adds a function as it is over these names, if its head breaks no rule there.
fn add_over(next: &mut Env, names: &Names, f: DeclaredFun) -> Result<(), Memory>
    requires new { has_fun f.name.now (held next.old).funs ≡ false }
    ensures added { OnOk result ((held next.new).funs ≡ (held next.old).funs
        ++ with_fun (fun_judged f.entry.name.now (function_tree f.entry.decl.now)
        (names_view names.now)) []) }
    ensures same_names { OnOk result (globals_of next.new ≡ globals_of next.old) }
{
    types_are_kept();
    match fun_of(names, f.name, f.decl) {
        Ok(fun) => next.add_fun(fun),
        Err(KindFault::Broken { .. }) => Ok(()),
        Err(KindFault::Memory) => Err(Memory),
    }
}

/// The names with the functions as they are over the names and the functions that were found before.
fn round(
    alloc: Global,
    at_rest: bool,
    known: &[KnownName],
    funs: &[DeclaredFun],
    before: &Env,
) -> Result<Env, Memory>
    requires { names_differ (fun_decls funs.now) ≡ true }
    ensures names { IfOk result (λ env. globals_of env
        ≡ last_first (known_at at_rest) known.now []) }
    ensures funs { IfOk result (λ env. (held env).funs
        ≡ funs_over (fun_decls funs.now) (names_in before.now)) }
{
    let mut next = names_without(alloc, at_rest, known)?;
    let names = Names::outermost(alloc, before);
    for f in funs {
        add_over(&mut next, &names, *f)?;
    }
    Ok(next)
}

/// Adds a function as it is over these names and functions, if its head breaks no rule there.
fn lay_fun(env: &mut Env, alloc: Global, f: DeclaredFun) -> Result<(), Memory>
    ensures { OnOk result (names_in env.new ≡ laid_by (fun_judged f.entry.name.now
        (function_tree f.entry.decl.now) (names_in env.old)) (names_in env.old)) }
{
    types_are_kept();
    match judged_over(alloc, env, f) {
        Ok(fun) => env.set_fun(fun),
        Err(KindFault::Broken { .. }) => Ok(()),
        Err(KindFault::Memory) => Err(Memory),
    }
}

/// The same for the function at a place.
fn lay_at(env: &mut Env, alloc: Global, place: usize, funs: &[DeclaredFun]) -> Result<(), Memory>
    ensures { OnOk result (names_in env.new
        ≡ laid_at (slice_get (fun_decls funs.now) place) (names_in env.old)) }
{
    match funs.get(place) {
        Some(f) => lay_fun(env, alloc, *f),
        None => Ok(()),
    }
}

/// The same for the function of a name, if it is one.
fn lay_named(
    env: &mut Env,
    alloc: Global,
    order: &Order,
    funs: &[DeclaredFun],
    name: &str,
) -> Result<(), Memory>
    ensures { OnOk result (names_in env.new
        ≡ laid_named name.now order.now (fun_decls funs.now) (names_in env.old)) }
{
    match order.place(name) {
        Some(place) => lay_at(env, alloc, place, funs),
        None => Ok(()),
    }
}

/// The same for each name of an order.
fn lay_all(env: &mut Env, alloc: Global, order: &Order, funs: &[DeclaredFun]) -> Result<(), Memory>
    ensures { OnOk result (names_in env.new
        ≡ laid order.now.names order.now (fun_decls funs.now) (names_in env.old)) }
{
    let mut rest = order.as_slice();
    'names: while let Some((first, others)) = rest.split_first() {
        lay_named(env, alloc, order, funs, first.as_str())?;
        rest = others;
    }
    Ok(())
}

/// All functions over names, to which those of an order are added one after the other.
fn over_order(
    env: &mut Env,
    alloc: Global,
    at_rest: bool,
    known: &[KnownName],
    funs: &[DeclaredFun],
    order: &Order,
) -> Result<Env, Memory>
    requires differ { names_differ (fun_decls funs.now) ≡ true }
    requires ordered { IsOrderOf order.now (fun_decls funs.now) }
    requires names { globals_of env.old ≡ last_first (known_at at_rest) known.now [] }
    requires no_funs { (held env.old).funs ≡ [] }
    ensures { IfOk result (λ env. names_in env
        ≡ seen (fun_decls funs.now) (last_first (known_at at_rest) known.now [])) }
{
    lay_all(env, alloc, order, funs)?;
    round(alloc, at_rest, known, funs, env)
}

/// The names with all functions, whose calls have an order: those in it one after the other, and then all of them over
/// these.
fn in_order(
    alloc: Global,
    at_rest: bool,
    known: &[KnownName],
    funs: &[DeclaredFun],
    order: &Order,
) -> Result<Env, Memory>
    requires differ { names_differ (fun_decls funs.now) ≡ true }
    requires ordered { IsOrderOf order.now (fun_decls funs.now) }
    ensures { IfOk result (λ env. names_in env
        ≡ seen (fun_decls funs.now) (last_first (known_at at_rest) known.now [])) }
{
    let mut env = names_without(alloc, at_rest, known)?;
    over_order(&mut env, alloc, at_rest, known, funs, order)
}

/// The names with all functions. A head may call functions in its sizes, so there are as many rounds as functions.
fn in_rounds(
    alloc: Global,
    at_rest: bool,
    known: &[KnownName],
    funs: &[DeclaredFun],
) -> Result<Env, Memory>
    requires { names_differ (fun_decls funs.now) ≡ true }
    ensures { IfOk result (λ env. names_in env
        ≡ seen (fun_decls funs.now) (last_first (known_at at_rest) known.now [])) }
{
    let mut env = names_without(alloc, at_rest, known)?;
    for _f in funs {
        env = round(alloc, at_rest, known, funs, &env)?;
    }
    Ok(env)
}

/// The names with all functions.
fn with_funs(
    alloc: Global,
    at_rest: bool,
    known: &[KnownName],
    funs: &[DeclaredFun],
    order: &Option<Order>,
) -> Result<Env, Memory>
    requires differ { names_differ (fun_decls funs.now) ≡ true }
    requires ordered { AreOrdered order.now (fun_decls funs.now) }
    ensures { IfOk result (λ env. names_in env
        ≡ seen (fun_decls funs.now) (last_first (known_at at_rest) known.now [])) }
{
    match order {
        Some(order) => in_order(alloc, at_rest, known, funs, order),
        None => in_rounds(alloc, at_rest, known, funs),
    }
}

/// What is seen of names that are known while values are sought: their values, and all functions over them. The names of
/// the functions differ.
///
/// [`names_differ`](crate::names_differ) tests the condition.
///
/// # Errors
///
/// `Memory` if memory runs out.
pub fn names_seen(alloc: Global, known: &[KnownName], funs: &[DeclaredFun]) -> Result<Env, Memory>
    requires { names_differ (fun_decls funs.now) ≡ true }
    ensures { IfOk result (λ env. names_in env ≡ seen (fun_decls funs.now) (all_known known.now)) }
{
    let order = order_of(alloc, funs)?;
    seen_over(alloc, known, funs, &order)
}

/// The same, once an order of what is called is known.
pub(crate) fn seen_over(
    alloc: Global,
    known: &[KnownName],
    funs: &[DeclaredFun],
    order: &Option<Order>,
) -> Result<Env, Memory>
    requires differ { names_differ (fun_decls funs.now) ≡ true }
    requires ordered { AreOrdered order.now (fun_decls funs.now) }
    ensures { IfOk result (λ env. names_in env ≡ seen (fun_decls funs.now) (all_known known.now)) }
{
    with_funs(alloc, false, known, funs, order)
}

/// What is seen of them inside an actor, once all values are known: of what changes only the kind.
///
/// [`names_differ`](crate::names_differ) tests the condition.
///
/// # Errors
///
/// `Memory` if memory runs out.
pub fn names_at_rest(
    alloc: Global,
    known: &[KnownName],
    funs: &[DeclaredFun],
) -> Result<Env, Memory>
    requires { names_differ (fun_decls funs.now) ≡ true }
    ensures { IfOk result (λ env. names_in env
        ≡ seen (fun_decls funs.now) (map at_rest (all_known known.now))) }
{
    let order = order_of(alloc, funs)?;
    with_funs(alloc, true, known, funs, &order)
}
