//! The firing of an action as code.

ghost use Rattle.std.specs.Prelude.{◌≡◌, ◌<◌, ◌≤◌, IfErr, IfOk, None, OnOk, length};
ghost use Rattle.cal_model.specs.Sound.{Each, IsSound, max_rate};
ghost use Rattle.cal_model.specs.View.{action_view, actor_of};
ghost use Rattle.lower_base.specs.Held.{AreBelow};
ghost use Rattle.lower_base.specs.Names.{names_view};
ghost use Rattle.lower_base.specs.Routining.{LocalsSized};
ghost use Rattle.lower_stmt.specs.Changing.{AreTyped};
ghost use Rattle.lower_stmt.specs.Procedures.{routines_of};
ghost use Rattle.action_lower.specs.FiringWords.{AddsBehind, AddsFiredOver, AddsFiringCode, AddsFiringOver};
ghost use Rattle.action_lower.specs.FiringWords.{IsBehindFault, IsFiringFault, IsFiringFaultAt, IsWholeBehind, IsWholeFiring};
ghost use Rattle.action_lower.specs.FiringWords.{left_out_of};
ghost use Rattle.action_lower.specs.Seats.{state_cells};

use crate::laws::firings_are_fired;
use crate::locals::lower_locals;
use crate::outputs::lower_outputs;
use crate::seats::seen_names;
use cal_model::{Bound, BoundAction, Port};
use code_ir::Instr;
use lower_base::{Callee, Draft, LowerFault, Named, next_place, put};
use lower_stmt::{ProcCallee, lower_calling_stmts};
use std::alloc::Global;

/// Where the code of a firing begins, and where it leaves what the action sends.
#[derive(Drop)]
pub struct Firing {
    /// The place of its first instruction.
    pub entry: u32,
    /// The first cell of each output, in text order: its tokens stand there one after the other.
    pub firsts: Vec<u32>,
}

/// Appends the code of a firing of an action: its locals, its body, its outputs, and the end.
///
/// `callees` holds the functions and `procedures` the procedures that the action may call, with their routines. The code
/// takes cells of its own, which are added to the draft. Run over the tokens that the action takes, from state cells that
/// hold the variables of a state in which the action is eligible, it ends as the firing does: done, with the variables
/// that the firing leaves in the state cells and what it sends in the cells of the outputs, or by the same trap. What
/// stood in the draft stays.
///
/// # Errors
///
/// `NotLowered` with the offset of the first part for which no code is made, as
/// [`lower_locals`](crate::lower_locals), [`lower_calling_stmts`](lower_stmt::lower_calling_stmts) and
/// [`lower_outputs`](crate::lower_outputs) say (`fault`). `TooLong` if the draft has 2 to the power of 32 instructions.
/// `TooManyCells` if the numbers of the cells that are used don't fit. `Memory` if memory runs out.
pub fn lower_firing(
    alloc: Global,
    b: &Bound,
    a: u16,
    callees: &[Callee],
    procedures: &[ProcCallee],
    draft: &mut Draft,
) -> Result<Firing, LowerFault>
    requires sound { IsSound (actor_of b.now) }
    requires action { a < length b.now.actions.items }
    requires cells { state_cells (actor_of b.now) ≤ draft.old.cells }
    ensures code { IfOk result
        (λ f. AddsFiringOver callees.now procedures.now b.now a f draft.old draft.new) }
    ensures fired { IfOk result
        (λ f. AddsFiredOver callees.now procedures.now b.now a f draft.old draft.new) }
    ensures whole { IfOk result
        (λ f. left_out_of (routines_of callees.now procedures.now) b.now a ≡ None) }
    ensures fault { IfErr result
        (IsFiringFaultAt callees.now procedures.now b.now a draft.new) }
{
    // it tells what the code of a firing does
    firings_are_fired();
    let act = &b.actions[usize::from(a)];
    let entry = next_place(draft)?;
    let mut names = seen_names(alloc, b, act)?;
    let firsts = put_firing(alloc, &mut names, callees, procedures, &b.outs, act, draft)?;
    Ok(Firing { entry, firsts })
}

/// Appends the code of the body of an action, of its outputs, and the end. The first cell of each output comes back.
fn put_behind(
    alloc: Global,
    names: &[Named],
    callees: &[Callee],
    procedures: &[ProcCallee],
    ports: &[Port],
    act: &BoundAction,
    draft: &mut Draft,
) -> Result<Vec<u32>, LowerFault>
    requires below { AreBelow draft.old.cells (names_view names.now) }
    requires typed { AreTyped (names_view names.now) }
    requires few { Each (λ o. length o.values.items ≤ max_rate) act.now.outputs.items }
    ensures code { IfOk result (λ firsts. AddsBehind callees.now procedures.now names.now
        ports.now act.now firsts.items draft.old draft.new) }
    ensures whole { OnOk result (IsWholeBehind callees.now procedures.now names.now act.now) }
    ensures fault { IfErr result
        (IsBehindFault callees.now procedures.now names.now act.now draft.new) }
{
    lower_calling_stmts(names, callees, procedures, &act.body, draft)?;
    let firsts = lower_outputs(alloc, names, callees, ports, &act.outputs, draft)?;
    put(draft, Instr::Done)?;
    Ok(firsts)
}

/// Appends the code of a firing over names. The first cell of each output comes back.
fn put_firing(
    alloc: Global,
    names: &mut Vec<Named>,
    callees: &[Callee],
    procedures: &[ProcCallee],
    ports: &[Port],
    act: &BoundAction,
    draft: &mut Draft,
) -> Result<Vec<u32>, LowerFault>
    requires below { AreBelow draft.old.cells (names_view names.old.items) }
    requires typed { AreTyped (names_view names.old.items) }
    requires sized { LocalsSized (action_view act.now).locals }
    requires few { Each (λ o. length o.values.items ≤ max_rate) act.now.outputs.items }
    ensures code { IfOk result (λ firsts. AddsFiringCode callees.now procedures.now
        names.old.items ports.now act.now firsts.items draft.old draft.new) }
    ensures whole { OnOk result
        (IsWholeFiring callees.now procedures.now names.old.items act.now) }
    ensures fault { IfErr result
        (IsFiringFault callees.now procedures.now names.old.items act.now draft.new) }
{
    lower_locals(names, callees, &act.locals, draft)?;
    put_behind(alloc, names, callees, procedures, ports, act, draft)
}
