//! The actions of an actor as code.

ghost use Rattle.std.specs.Prelude.{◌≡◌, ℕ, ◌<◌, ◌++◌, ◌∷◌, [], IfErr, IfOk, None, OnOk, Some, length, true};
ghost use Rattle.cal_model.specs.Sound.{IsSound};
ghost use Rattle.cal_model.specs.View.{actor_of};
ghost use Rattle.lower_base.specs.Callees.{functions_view};
ghost use Rattle.lower_stmt.specs.Procedures.{routines_of};
ghost use Rattle.action_lower.specs.Seats.{state_cells};
ghost use Rattle.lower_tables.specs.Tables.{AreRates, AreRatesOf};
ghost use Rattle.lower_actor.specs.Coded.{AddsBodies, AnswersFrom, AreCodedActions, FiresFrom, IsCodedAction, IsMore, SendsInside, all_entries, entries_of};
ghost use Rattle.lower_actor.specs.ClearedBodies.{ClearedFiring, ClearedGuards, ClearsAction, ClearsActions};
ghost use Rattle.lower_actor.specs.Drafted.{IsServed};
ghost use Rattle.lower_actor.specs.Faults.{AreWhole, IsWhyAction, IsWhyActions, left_out_at};

use crate::fault::ActorFault;
use crate::firings::put_firing;
use crate::sends::sends_of;
use action_lower::lower_guards;
use cal_model::Bound;
use lower_base::{Callee, Draft, LowerFault};
use lower_stmt::ProcCallee;
use lower_tables::Rates;
use lowered_actor::ActionCode;
use std::alloc::Global;

/// Where the code of an action stands in a draft.
#[derive(Drop)]
struct Entries {
    guards: Vec<u32>,
    fire: u32,
    /// The first cell of each output, in text order.
    firsts: Vec<u32>,
}

/// Appends the code of each action, one after the other. If that is wanted, each guard and each firing clears the cells
/// behind the `kept` state cells before anything else.
pub(crate) fn lower_actions(
    alloc: Global,
    b: &Bound,
    callees: &[Callee],
    procedures: &[ProcCallee],
    kept: u32,
    clear: bool,
    rates: &[Rates],
    draft: &mut Draft,
) -> Result<Vec<ActionCode>, ActorFault>
    requires sound { IsSound (actor_of b.now) }
    requires kept { kept ≡ state_cells (actor_of b.now) }
    requires served { IsServed (actor_of b.now) (routines_of callees.now procedures.now) draft.old }
    requires rates { AreRates (actor_of b.now) (length b.now.actions.items) rates.now }
    ensures coded { IfOk result (λ actions. AreCodedActions (actor_of b.now)
        (length b.now.actions.items) actions.items draft.new) }
    ensures bodies { IfOk result
        (λ actions. AddsBodies (all_entries actions.items) draft.old draft.new) }
    ensures cleared { IfOk result (λ actions. ClearsActions clear (actor_of b.now)
        (functions_view callees.now) draft.old.cells actions.items draft.new) }
    ensures more { OnOk result (IsMore draft.old draft.new) }
    ensures whole { OnOk result (AreWhole (routines_of callees.now procedures.now) b.now
        (length b.now.actions.items)) }
    ensures fault { IfErr result
        (IsWhyActions (routines_of callees.now procedures.now) b.now) }
{
    let mut actions = Vec::new(alloc);
    for action in 0..rates.len() as u16 {
        let coded = lower_action(
            alloc,
            b,
            callees,
            procedures,
            kept,
            clear,
            action,
            &rates[usize::from(action)],
            draft,
        )?;
        actions.push(coded)?;
    }
    Ok(actions)
}

/// Appends the code of an action.
fn lower_action(
    alloc: Global,
    b: &Bound,
    callees: &[Callee],
    procedures: &[ProcCallee],
    kept: u32,
    clear: bool,
    action: u16,
    rates: &Rates,
    draft: &mut Draft,
) -> Result<ActionCode, LowerFault>
    requires sound { IsSound (actor_of b.now) }
    requires action { action < length b.now.actions.items }
    requires kept { kept ≡ state_cells (actor_of b.now) }
    requires served { IsServed (actor_of b.now) (routines_of callees.now procedures.now) draft.old }
    requires rates { AreRatesOf (actor_of b.now) action rates.now.needs.items
        rates.now.gives.items }
    ensures coded { IfOk result (λ coded. IsCodedAction (actor_of b.now) action coded draft.new) }
    ensures bodies { IfOk result (λ coded. AddsBodies (entries_of coded) draft.old draft.new) }
    ensures cleared { IfOk result (λ coded. ClearsAction clear (actor_of b.now) action
        (functions_view callees.now) draft.old.cells coded draft.new) }
    ensures more { OnOk result (IsMore draft.old draft.new) }
    ensures whole { OnOk result
        (left_out_at (routines_of callees.now procedures.now) b.now action ≡ None) }
    ensures fault { IfErr result
        (IsWhyAction (routines_of callees.now procedures.now) b.now action) }
{
    let entries = lower_entries(alloc, b, callees, procedures, kept, clear, action, draft)?;
    let outputs = &b.actions[usize::from(action)].outputs;
    let sends = sends_of(alloc, outputs, &entries.firsts, b.outs.len() as u32)?;
    Ok(ActionCode {
        needs: Vec::from_slice(alloc, &rates.needs)?,
        gives: Vec::from_slice(alloc, &rates.gives)?,
        guards: entries.guards,
        fire: entries.fire,
        sends,
    })
}

/// Appends the code of the guards of an action, and of its firing.
fn lower_entries(
    alloc: Global,
    b: &Bound,
    callees: &[Callee],
    procedures: &[ProcCallee],
    kept: u32,
    clear: bool,
    action: u16,
    draft: &mut Draft,
) -> Result<Entries, LowerFault>
    requires sound { IsSound (actor_of b.now) }
    requires action { action < length b.now.actions.items }
    requires kept { kept ≡ state_cells (actor_of b.now) }
    requires served { IsServed (actor_of b.now) (routines_of callees.now procedures.now) draft.old }
    ensures guards { IfOk result
        (λ entries. AnswersFrom (actor_of b.now) action entries.guards.items draft.new) }
    ensures bodies { IfOk result (λ entries.
        AddsBodies (entries.guards.items ++ entries.fire ∷ []) draft.old draft.new) }
    ensures fires { IfOk result (λ entries. FiresFrom (actor_of b.now) action entries.fire
        entries.firsts.items draft.new) }
    ensures guards_cleared { IfOk result (λ entries. clear ≡ true
        → ClearedGuards (actor_of b.now) action (functions_view callees.now) draft.old.cells
        entries.guards.items draft.new) }
    ensures firing_cleared { IfOk result (λ entries. clear ≡ true
        → ClearedFiring (actor_of b.now) action (functions_view callees.now) draft.old.cells
        entries.fire entries.firsts.items draft.new) }
    ensures inside { IfOk result (λ entries. SendsInside (actor_of b.now) action
        entries.firsts.items draft.new) }
    ensures more { OnOk result (IsMore draft.old draft.new) }
    ensures whole { OnOk result
        (left_out_at (routines_of callees.now procedures.now) b.now action ≡ None) }
    ensures fault { IfErr result
        (IsWhyAction (routines_of callees.now procedures.now) b.now action) }
{
    let clears = clears_behind(clear, kept);
    let guards = lower_guards(alloc, b, action, callees, clears, draft)?;
    let firing = put_firing(alloc, b, callees, procedures, kept, clear, action, draft)?;
    Ok(Entries {
        guards,
        fire: firing.entry,
        firsts: firing.firsts,
    })
}

/// Behind how many cells guards clear the others, if they are to.
fn clears_behind(clear: bool, kept: u32) -> Option<u32>
    ensures some { clear ≡ true → result ≡ Some kept }
    ensures behind { (n : ℕ) → result ≡ Some n → n ≡ kept }
{
    if clear { Some(kept) } else { None }
}
