//! The functions of an actor as routines.

ghost use Rattle.std.specs.Prelude.{◌≡◌, [], ℕ, ◌<◌, IfErr, IfOk, None, OnOk, Some, false, length, true};
ghost use Rattle.cal_model.specs.Sound.{IsSound};
ghost use Rattle.cal_model.specs.View.{actor_of, fun_view};
ghost use Rattle.lower_base.specs.Callees.{functions_view};
ghost use Rattle.lower_base.specs.Names.{names_view};
ghost use Rattle.action_lower.specs.FiringCode.{globals_of};
ghost use Rattle.lower_actor.specs.Calls.{AllMade, LacksOne, calls_of_fun, unmade};
ghost use Rattle.lower_actor.specs.Drafted.{HoldsFunctions, WaitsFunction};
ghost use Rattle.lower_actor.specs.Faults.{OnlyMemory};
ghost use Rattle.lower_actor.specs.RoutineWords.{AddsFun, HaveRoutines, IsReadyFun, IsWholeFun, KnownFuns, MadeFunctions, NoFunctionLeft};
ghost use Rattle.lower_actor.specs.Settled.{AllFunctions, AreFunctions};

use crate::calls::calls_of_fun;
use crate::fault::ActorFault;
use crate::made::{all_made, is_made, mark, none_made};
use crate::order::functions_in_order;
use cal_model::{Bound, BoundFun};
use expr_lower::lower_function;
use lower_base::{Callee, Draft, Named};
use std::alloc::{AllocError, Global};

/// Appends the routine of each function of an actor, behind those that it calls. They are taken in an order in which
/// those that are called come first, so each is lowered once.
pub(crate) fn lower_functions(
    alloc: Global,
    b: &Bound,
    names: &[Named],
    draft: &mut Draft,
) -> Result<Vec<Callee>, ActorFault>
    requires sound { IsSound (actor_of b.now) }
    requires names { names_view names.now ≡ globals_of (actor_of b.now) }
    requires none { HoldsFunctions (actor_of b.now) [] draft.old }
    ensures holds { IfOk result (λ callees.
        HoldsFunctions (actor_of b.now) (functions_view callees.items) draft.new) }
    ensures are { IfOk result (λ callees.
        AreFunctions (actor_of b.now) (functions_view callees.items)) }
    ensures all { IfOk result (λ callees.
        AllFunctions (actor_of b.now) (functions_view callees.items)) }
    ensures have { IfOk result (λ callees. HaveRoutines b.now callees.items) }
    ensures fault { IfErr result OnlyMemory }
{
    let mut callees = Vec::new(alloc);
    let mut made = none_made(alloc, b.funs.len())?;
    let order = functions_in_order(alloc, b)?;
    lower_these(alloc, b, names, &order, &mut callees, &mut made, draft)?;
    lower_left(alloc, b, names, &mut callees, &mut made, draft)?;
    Ok(callees)
}

/// Appends the routines of these, as far as those that they call have routines.
fn lower_these(
    alloc: Global,
    b: &Bound,
    names: &[Named],
    order: &[usize],
    callees: &mut Vec<Callee>,
    made: &mut Vec<bool>,
    draft: &mut Draft,
) -> Result<(), ActorFault>
    requires sound { IsSound (actor_of b.now) }
    requires names { names_view names.now ≡ globals_of (actor_of b.now) }
    requires so_far { MadeFunctions b.now callees.old.items made.old.items draft.old }
    ensures so_far { OnOk result
        (MadeFunctions b.now callees.new.items made.new.items draft.new) }
    ensures fault { IfErr result OnlyMemory }
{
    let mut rest = order;
    'numbers: while let Some((first, others)) = rest.split_first() {
        lower_ready(alloc, b, names, *first, callees, made, draft)?;
        rest = others;
    }
    Ok(())
}

/// Appends the routine of the function of a number, if all that it calls have routines.
fn lower_ready(
    alloc: Global,
    b: &Bound,
    names: &[Named],
    k: usize,
    callees: &mut Vec<Callee>,
    made: &mut Vec<bool>,
    draft: &mut Draft,
) -> Result<(), ActorFault>
    requires sound { IsSound (actor_of b.now) }
    requires names { names_view names.now ≡ globals_of (actor_of b.now) }
    requires so_far { MadeFunctions b.now callees.old.items made.old.items draft.old }
    ensures so_far { OnOk result
        (MadeFunctions b.now callees.new.items made.new.items draft.new) }
    ensures fault { IfErr result OnlyMemory }
{
    let ready = is_ready(alloc, b, callees, made, k)?;
    if !ready {
        return Ok(());
    }
    lower_at(alloc, b, names, k, callees, made, draft)
}

/// Appends the routines of those that are left, as long as there is one of which all that it calls have routines. None is
/// left if they were taken in order.
fn lower_left(
    alloc: Global,
    b: &Bound,
    names: &[Named],
    callees: &mut Vec<Callee>,
    made: &mut Vec<bool>,
    draft: &mut Draft,
) -> Result<(), ActorFault>
    requires sound { IsSound (actor_of b.now) }
    requires names { names_view names.now ≡ globals_of (actor_of b.now) }
    requires so_far { MadeFunctions b.now callees.old.items made.old.items draft.old }
    ensures so_far { OnOk result
        (MadeFunctions b.now callees.new.items made.new.items draft.new) }
    ensures none { OnOk result (NoFunctionLeft b.now made.new.items) }
    ensures fault { IfErr result OnlyMemory }
{
    let found = first_ready(alloc, b, callees, made)?;
    match found {
        Some(k) => {
            lower_at(alloc, b, names, k, callees, made, draft)?;
            lower_left(alloc, b, names, callees, made, draft)
        }
        None => Ok(()),
    }
}

/// The number of the first function without a routine of which all that it calls have one.
fn first_ready(
    alloc: Global,
    b: &Bound,
    callees: &[Callee],
    made: &[bool],
) -> Result<Option<usize>, AllocError>
    requires sound { IsSound (actor_of b.now) }
    requires known { KnownFuns b.now callees.now made.now }
    ensures some { IfOk result (λ found. (k : ℕ) → found ≡ Some k
        → IsReadyFun b.now callees.now made.now k) }
    ensures none { IfOk result (λ found. found ≡ None → NoFunctionLeft b.now made.now) }
{
    for k in 0..b.funs.len() {
        let ready = is_ready(alloc, b, callees, made, k)?;
        if ready {
            return Ok(Some(k));
        }
    }
    Ok(None)
}

/// Whether there is a function of this number, it has no routine, and all that it calls have one.
fn is_ready(
    alloc: Global,
    b: &Bound,
    callees: &[Callee],
    made: &[bool],
    k: usize,
) -> Result<bool, AllocError>
    requires sound { IsSound (actor_of b.now) }
    requires known { KnownFuns b.now callees.now made.now }
    ensures yes { IfOk result (λ ready. ready ≡ true
        → IsReadyFun b.now callees.now made.now k) }
    ensures no { IfOk result (λ ready. ready ≡ false → WaitsFunction b.now made.now k) }
{
    if is_made(made, k) {
        return Ok(false);
    }
    match b.funs.get(k) {
        Some(f) => calls_made(alloc, b, made, f),
        None => Ok(false),
    }
}

/// Whether all that a function calls have routines.
fn calls_made(alloc: Global, b: &Bound, made: &[bool], f: &BoundFun) -> Result<bool, AllocError>
    ensures yes { IfOk result (λ all. all ≡ true
        → AllMade made.now (calls_of_fun b.now (fun_view f.now)).functions) }
    ensures no { IfOk result (λ all. all ≡ false
        → LacksOne made.now (calls_of_fun b.now (fun_view f.now)).functions) }
{
    let calls = calls_of_fun(alloc, b, f)?;
    Ok(all_made(made, calls.functions()))
}

/// Appends the routine of the function of a number.
fn lower_at(
    alloc: Global,
    b: &Bound,
    names: &[Named],
    k: usize,
    callees: &mut Vec<Callee>,
    made: &mut Vec<bool>,
    draft: &mut Draft,
) -> Result<(), ActorFault>
    requires sound { IsSound (actor_of b.now) }
    requires names { names_view names.now ≡ globals_of (actor_of b.now) }
    requires so_far { MadeFunctions b.now callees.old.items made.old.items draft.old }
    requires ready { IsReadyFun b.now callees.old.items made.old.items k }
    ensures so_far { OnOk result
        (MadeFunctions b.now callees.new.items made.new.items draft.new) }
    ensures fewer { OnOk result (unmade made.new.items < unmade made.old.items) }
    ensures fault { IfErr result OnlyMemory }
{
    add_function(alloc, names, callees, &b.funs[k], draft)?;
    mark(made, k);
    Ok(())
}

/// Appends the routine of a function.
fn add_function(
    alloc: Global,
    names: &[Named],
    callees: &mut Vec<Callee>,
    f: &BoundFun,
    draft: &mut Draft,
) -> Result<(), ActorFault>
    requires whole { IsWholeFun names.now callees.old.items f.now }
    ensures added { OnOk result (AddsFun names.now f.now callees.old.items callees.new.items
        draft.old draft.new) }
    ensures fault { IfErr result OnlyMemory }
{
    if draft.routines.len() >= u32::MAX as usize {
        return Err(ActorFault::Memory);
    }
    let callee = lower_function(alloc, names, callees, f, draft)?;
    callees.push(callee)?;
    Ok(())
}
