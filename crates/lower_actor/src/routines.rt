//! The functions and the procedures of an actor as routines.

ghost use Rattle.std.specs.Prelude.{◌≡◌, ◌+◌, [], IfErr, IfOk, length};
ghost use Rattle.cal_model.specs.Sound.{IsSound};
ghost use Rattle.cal_model.specs.View.{actor_of};
ghost use Rattle.lower_stmt.specs.Procedures.{routines_of};
ghost use Rattle.action_lower.specs.Seats.{state_cells};
ghost use Rattle.lower_actor.specs.Drafted.{HoldsRoutines, IsServed};
ghost use Rattle.lower_actor.specs.Faults.{OnlyMemory};
ghost use Rattle.lower_actor.specs.Settled.{AreSettled};

use crate::fault::ActorFault;
use crate::functions::lower_functions;
use crate::procedures::lower_procedures;
use action_lower::global_names;
use cal_model::Bound;
use lower_base::{Callee, Draft};
use lower_stmt::ProcCallee;
use std::alloc::Global;

/// What the actions of an actor may call.
#[derive(Drop)]
pub(crate) struct Called {
    pub callees: Vec<Callee>,
    pub procedures: Vec<ProcCallee>,
}

/// Appends the routine of each function and of each procedure of which no part is left out, each behind those that it
/// calls.
pub(crate) fn lower_routines(
    alloc: Global,
    b: &Bound,
    draft: &mut Draft,
) -> Result<Called, ActorFault>
    requires sound { IsSound (actor_of b.now) }
    requires instrs { draft.old.instrs.items ≡ [] }
    requires routines { draft.old.routines.items ≡ [] }
    requires cells { draft.old.cells ≡ state_cells (actor_of b.now) }
    ensures settled { IfOk result (λ called. AreSettled (actor_of b.now)
        (routines_of called.callees.items called.procedures.items)) }
    ensures served { IfOk result (λ called. IsServed (actor_of b.now)
        (routines_of called.callees.items called.procedures.items) draft.new) }
    ensures bodies { IfOk result (λ called. HoldsRoutines draft.new) }
    ensures count { IfOk result (λ called. length draft.new.routines.items
        ≡ length called.callees.items + length called.procedures.items) }
    ensures fault { IfErr result OnlyMemory }
{
    let names = global_names(alloc, b)?;
    let callees = lower_functions(alloc, b, &names, draft)?;
    let procedures = lower_procedures(alloc, b, &names, &callees, draft)?;
    Ok(Called {
        callees,
        procedures,
    })
}
