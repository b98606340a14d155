//! From an actor to a lowered one.

ghost use Rattle.std.specs.Prelude.{◌≡◌, IfErr, IfOk, OnOk, true};
ghost use Rattle.cal_model.specs.Sound.{IsSound};
ghost use Rattle.cal_model.specs.View.{actor_of};
ghost use Rattle.lower_scratch.specs.Clearing.{AllStand};
ghost use Rattle.lowered_actor.specs.Actor.{actor_of as parts_view};
ghost use Rattle.lowered_actor.specs.Facts.{FitTogether, RunRight};
ghost use Rattle.lower_actor.specs.Coded.{IsMadeOf};
ghost use Rattle.lower_actor.specs.Faults.{IsActorFault, IsWhole, OnlyMemory};
ghost use Rattle.lower_actor.specs.Standing.{ArePartsOf, StandsForActor};

use crate::actions::lower_actions;
use crate::code::{admitted, first_numbers};
use crate::fault::ActorFault;
use crate::routines::lower_routines;
use cal_model::Bound;
use lower_base::Draft;
use lower_scratch::keep_facts;
use lower_scratch::laws::standing_bodies_are_right;
use lower_tables::laws::{lowered_actors_behave_as_meant, runs_suffice, tables_are_meant};
use lower_tables::lower_tables;
use lowered_actor::{Lowered, Parts};
use rvc_base::Memory;
use std::alloc::Global;

/// The lowered actor that stands for a sound actor: it has the actor's schedule, priorities and rates, its state cells
/// hold the actor's variables from cell 0 on, scalar by scalar, and it behaves as the actor does (`stands_for`).
///
/// Its guards and firings keep cells of their own behind the state cells. If it isn't seen that nothing depends on what
/// these held before, all code is made once more, and each guard and each firing clears them before anything else. Its
/// instructions write no state cell that a firing, or a guard, may not change, and read no token behind those that the
/// action takes; so they keep the facts of lowered actors.
///
/// Of a sound actor no part is left out, so it always has one.
///
/// # Errors
///
/// If memory runs out, or if the code has 2 to the power of 32 instructions or routines or its cells can't be counted, which
/// would take 60 gigabytes or more.
pub fn lower(alloc: Global, b: &Bound) -> Result<Lowered, Memory>
    requires sound { IsSound (actor_of b.now) }
    ensures stands_for { IfOk result (StandsForActor (actor_of b.now)) }
    ensures whole { OnOk result (IsWhole b.now) }
{
    match lower_parts(alloc, b) {
        Ok(lowered) => Ok(lowered),
        Err(fault) => Err(memory_of(b, fault)),
    }
}

/// Memory is all that may be lacking for a sound actor.
fn memory_of(b: &Bound, fault: ActorFault) -> Memory
    requires sound { IsSound (actor_of b.now) }
    requires fault { IsActorFault b.now fault }
{
    match fault {
        ActorFault::Memory => Memory,
        ActorFault::NotLowered { at: _ } => unreachable!(),
    }
}

/// The lowered actor, if no part is left out.
///
/// # Errors
///
/// `Memory` as above. `NotLowered` with the offset of the first part of a guard or a firing for which no code is made, in
/// the first action that has one, as [`lower_guards`](action_lower::lower_guards) and
/// [`lower_firing`](action_lower::lower_firing) say. A guard calls each function of which no part is left out, and a firing
/// such a procedure too: a call of another one is such a part. The code is always admitted.
fn lower_parts(alloc: Global, b: &Bound) -> Result<Lowered, ActorFault>
    requires sound { IsSound (actor_of b.now) }
    ensures stands_for { IfOk result (StandsForActor (actor_of b.now)) }
    ensures whole { OnOk result (IsWhole b.now) }
    ensures fault { IfErr result (IsActorFault b.now) }
{
    let parts = parts_of(alloc, b, false)?;
    let keep = keep_facts(alloc, &parts)?;
    if keep {
        return of_parts(alloc, parts);
    }
    lower_cleared(alloc, b)
}

/// The same, of code that clears its cells before anything else.
fn lower_cleared(alloc: Global, b: &Bound) -> Result<Lowered, ActorFault>
    requires sound { IsSound (actor_of b.now) }
    ensures stands_for { IfOk result (StandsForActor (actor_of b.now)) }
    ensures whole { OnOk result (IsWhole b.now) }
    ensures fault { IfErr result (IsActorFault b.now) }
{
    // it tells that such code keeps the facts
    standing_bodies_are_right();
    let parts = parts_of(alloc, b, true)?;
    of_parts(alloc, parts)
}

/// The parts of a lowered actor that stands for an actor, if they keep the facts of one. They do if the guards and firings
/// clear their cells before anything else: each of their instructions stands then.
fn parts_of(alloc: Global, b: &Bound, clear: bool) -> Result<Parts, ActorFault>
    requires sound { IsSound (actor_of b.now) }
    ensures parts { IfOk result (ArePartsOf (actor_of b.now)) }
    ensures stand { IfOk result (λ parts. clear ≡ true → AllStand (parts_view parts)) }
    ensures whole { OnOk result (IsWhole b.now) }
    ensures fault { IfErr result (IsActorFault b.now) }
{
    // they tell that the tables, the guards and the firings make the behaviour, and what the firings send
    tables_are_meant();
    lowered_actors_behave_as_meant();
    runs_suffice();
    let tables = lower_tables(alloc, b)?;
    let mut draft = Draft {
        instrs: Vec::new(alloc),
        routines: Vec::new(alloc),
        cells: tables.kept,
    };
    let called = lower_routines(alloc, b, &mut draft)?;
    let actions = lower_actions(
        alloc,
        b,
        &called.callees,
        &called.procedures,
        tables.kept,
        clear,
        &tables.rates,
        &mut draft,
    )?;
    let code = admitted(alloc, draft, &actions)?;
    let first = first_numbers(alloc, b, code.cells())?;
    Ok(Parts {
        code,
        fsm: tables.fsm,
        order: tables.order,
        actions,
        first,
        kept: tables.kept,
        start: tables.start,
        saved: tables.saved,
        ins: tables.ins,
        outs: tables.outs,
    })
}

/// The lowered actor of parts that fit together and keep the facts.
fn of_parts(alloc: Global, parts: Parts) -> Result<Lowered, ActorFault>
    requires fits { FitTogether (parts_view parts) }
    requires right { RunRight (parts_view parts) }
    ensures made { IfOk result (IsMadeOf parts) }
    ensures fault { IfErr result OnlyMemory }
{
    let lowered = Lowered::new(alloc, parts)?;
    // it tells that the facts are kept
    let _code = lowered.code();
    Ok(lowered)
}
