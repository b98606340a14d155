//! The guards of an action as code.

ghost use Rattle.std.specs.Prelude.{◌≡◌, ◌<◌, ◌≤◌, IfErr, IfOk, None, OnOk, Some, length};
ghost use Rattle.cal_ast.specs.View.{expr_tree};
ghost use Rattle.cal_model.specs.Sound.{IsSound};
ghost use Rattle.cal_model.specs.View.{actor_of};
ghost use Rattle.lower_base.specs.Callees.{functions_view};
ghost use Rattle.lower_base.specs.Held.{AreBelow};
ghost use Rattle.lower_base.specs.Names.{names_view};
ghost use Rattle.lower_base.specs.Words.{IsFaultWith, IsWholeWith};
ghost use Rattle.action_lower.specs.GuardWords.{AddsGuardCode, AddsGuardOver, AddsGuards, AddsGuardsOver, AnswerAsGuards};
ghost use Rattle.action_lower.specs.GuardWords.{AreWholeGuards, ClearsBehind, ClearsWithin, IsActionFault, IsGuardsFault, IsWholeAction, SetsZero};
ghost use Rattle.action_lower.specs.Seats.{state_cells};

use crate::seats::seen_names;
use cal_ast::Expr;
use cal_model::{Bound, actions_fire_or_trap};
use code_ir::Instr;
use expr_lower::lower_calling;
use lower_base::{Callee, Draft, LowerFault, Named, next_place, put};
use std::alloc::Global;

/// Appends the code of the guards of an action, one after the other: for each that of its expression, and an answer.
/// Their entries come back.
///
/// `callees` holds the functions that the guards may call, with their routines. The code answers as the guards do, in each
/// state of the actor whose variables the state cells hold, over the tokens that the action takes; it changes no state
/// cell. A guard that traps or runs out of turns in a function traps so as code, too. What stood in the draft stays.
///
/// If `clears` is the number of state cells, the code of each guard begins with an instruction that clears all cells
/// behind them, up to the last one that the draft has when the guard is made: then nothing depends on what they held.
///
/// # Errors
///
/// `NotLowered` with the offset of the first part of a guard for which no code is made, as
/// [`lower_calling`](lower_base::lower_calling) says (`fault`). `TooLong` if the draft has 2 to the power of 32
/// instructions. `Memory` if memory runs out.
pub fn lower_guards(
    alloc: Global,
    b: &Bound,
    a: u16,
    callees: &[Callee],
    clears: Option<u32>,
    draft: &mut Draft,
) -> Result<Vec<u32>, LowerFault>
    requires sound { IsSound (actor_of b.now) }
    requires action { a < length b.now.actions.items }
    requires cells { state_cells (actor_of b.now) ≤ draft.old.cells }
    requires clears { ClearsBehind (actor_of b.now) clears }
    ensures code { IfOk result (λ entries. AddsGuards clears (functions_view callees.now)
        (actor_of b.now) a entries.items draft.old draft.new) }
    ensures answers { IfOk result (λ entries. AnswerAsGuards (functions_view callees.now)
        (actor_of b.now) a entries.items draft.old draft.new) }
    ensures whole { OnOk result (IsWholeAction callees.now b.now a) }
    ensures fault { IfErr result (IsActionFault callees.now b.now a draft.new) }
{
    // it tells that each guard is a truth value or traps
    actions_fire_or_trap();
    let act = &b.actions[usize::from(a)];
    let names = seen_names(alloc, b, act)?;
    put_guards(alloc, &names, callees, clears, &act.guards, draft)
}

/// Appends the code of guards over names. Their entries come back.
fn put_guards(
    alloc: Global,
    names: &[Named],
    callees: &[Callee],
    clears: Option<u32>,
    guards: &[Expr],
    draft: &mut Draft,
) -> Result<Vec<u32>, LowerFault>
    requires below { AreBelow draft.old.cells (names_view names.now) }
    requires clears { ClearsWithin draft.old clears }
    ensures code { IfOk result (λ entries. AddsGuardsOver clears callees.now names.now guards.now
        entries.items draft.old draft.new) }
    ensures whole { OnOk result (AreWholeGuards callees.now names.now guards.now) }
    ensures fault { IfErr result (IsGuardsFault callees.now names.now guards.now draft.new) }
{
    let mut entries = Vec::new(alloc);
    for guard in guards {
        let entry = put_guard(names, callees, clears, guard, draft)?;
        entries.push(entry)?;
    }
    Ok(entries)
}

/// Appends the code of a guard. Its entry comes back.
fn put_guard(
    names: &[Named],
    callees: &[Callee],
    clears: Option<u32>,
    guard: &Expr,
    draft: &mut Draft,
) -> Result<u32, LowerFault>
    requires below { AreBelow draft.old.cells (names_view names.now) }
    requires clears { ClearsWithin draft.old clears }
    ensures code { IfOk result (λ entry.
        AddsGuardOver clears callees.now names.now guard.now entry draft.old draft.new) }
    ensures whole { OnOk result (IsWholeWith callees.now names.now (expr_tree guard.now)) }
    ensures fault { IfErr result
        (IsFaultWith callees.now names.now (expr_tree guard.now) draft.new) }
{
    let entry = next_place(draft)?;
    put_code(names, callees, clears, guard, draft)?;
    Ok(entry)
}

/// Appends it, with cells that are cleared first or without.
fn put_code(
    names: &[Named],
    callees: &[Callee],
    clears: Option<u32>,
    guard: &Expr,
    draft: &mut Draft,
) -> Result<(), LowerFault>
    requires below { AreBelow draft.old.cells (names_view names.now) }
    requires clears { ClearsWithin draft.old clears }
    ensures code { OnOk result
        (AddsGuardCode clears callees.now names.now guard.now draft.old draft.new) }
    ensures whole { OnOk result (IsWholeWith callees.now names.now (expr_tree guard.now)) }
    ensures fault { IfErr result
        (IsFaultWith callees.now names.now (expr_tree guard.now) draft.new) }
{
    match clears {
        Some(kept) => put_cleared(names, callees, kept, guard, draft),
        None => put_plain(names, callees, guard, draft),
    }
}

/// Appends it as it is.
fn put_plain(
    names: &[Named],
    callees: &[Callee],
    guard: &Expr,
    draft: &mut Draft,
) -> Result<(), LowerFault>
    requires below { AreBelow draft.old.cells (names_view names.now) }
    ensures code { OnOk result
        (AddsGuardCode None callees.now names.now guard.now draft.old draft.new) }
    ensures whole { OnOk result (IsWholeWith callees.now names.now (expr_tree guard.now)) }
    ensures fault { IfErr result
        (IsFaultWith callees.now names.now (expr_tree guard.now) draft.new) }
{
    lower_calling(names, callees, guard, draft)?;
    draft.instrs.push(Instr::Answer)?;
    Ok(())
}

/// Appends it behind an instruction that clears all cells behind the `kept` state cells.
fn put_cleared(
    names: &[Named],
    callees: &[Callee],
    kept: u32,
    guard: &Expr,
    draft: &mut Draft,
) -> Result<(), LowerFault>
    requires below { AreBelow draft.old.cells (names_view names.now) }
    requires kept { kept ≤ draft.old.cells }
    ensures code { OnOk result
        (AddsGuardCode (Some kept) callees.now names.now guard.now draft.old draft.new) }
    ensures whole { OnOk result (IsWholeWith callees.now names.now (expr_tree guard.now)) }
    ensures fault { IfErr result
        (IsFaultWith callees.now names.now (expr_tree guard.now) draft.new) }
{
    let place = draft.instrs.len();
    put(draft, Instr::Zero(0, 0))?;
    put_plain(names, callees, guard, draft)?;
    clear_at(draft, place, kept);
    Ok(())
}

/// Makes the instruction at a place clear all cells of a draft but the first `kept` ones.
pub fn clear_at(draft: &mut Draft, place: usize, kept: u32)
    requires inside { place < length draft.old.instrs.items }
    requires cells { kept ≤ draft.old.cells }
    ensures clears { SetsZero draft.old.instrs.items draft.new.instrs.items place kept
        draft.old.cells }
    ensures routines { draft.new.routines.items ≡ draft.old.routines.items }
    ensures cells { draft.new.cells ≡ draft.old.cells }
{
    let count = draft.cells - kept;
    draft.instrs[place] = Instr::Zero(kept, count);
}
