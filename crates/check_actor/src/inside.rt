//! What is inside an actor, and the actor of its parts.

ghost use Rattle.std.specs.Prelude.{◌≡◌, ◌≤◌, IfOk, List, length, map};
ghost use Rattle.cal_check.specs.Actors.{all_funs, all_valued};
ghost use Rattle.cal_check.specs.Variables.{Given, Spot};
ghost use Rattle.cal_model.specs.Sound.{max_ports};
ghost use Rattle.cal_model.specs.View.{var_view};
ghost use Rattle.const_env.specs.Counting.{names_view};
ghost use Rattle.check_functions.specs.Known.{fun_decls};
ghost use Rattle.check_actor.specs.Parts.{AreKept, ArePartsIn, BuildsActor, FindsInside, FindsKept, TellsFault};
ghost use Rattle.check_actor.specs.Sources.{source_in};

use crate::fault::placed;
use crate::keeping::keep_used;
use crate::others::sift_inside;
use crate::routines::{Routines, check_routines};
use crate::scalars::check_scalars;
use crate::sifting::lacks;
use cal_imports::Scope;
use cal_model::{Bound, BoundVar};
use check_build_actor::{BareActor, actor};
use check_functions::DeclaredFun;
use check_variable::Header;
use const_eval::Names;
use rvc_base::{Front, Memory};
use std::alloc::Global;

/// The actor of these parts, and of the actions, the schedule and the priorities that are declared in it.
fn built(names: &Names, bare: BareActor, scope: &Scope) -> Result<Bound, Front>
    requires few_ins { length bare.ins.items ≤ max_ports }
    requires few_outs { length bare.outs.items ≤ max_ports }
    ensures { BuildsActor result bare scope.now (names_view names.now) }
{
    match actor(names, bare, &scope.actor) {
        Ok(found) => Ok(found),
        Err(fault) => Err(placed(scope.file, fault)),
    }
}

/// The parts of an actor, without the variables and functions of other files that it doesn't use.
fn bare_of(
    alloc: Global,
    scope: &Scope,
    held: Vec<BoundVar>,
    header: Header,
    routines: Routines,
) -> Result<BareActor, Memory>
    ensures { IfOk result (λ bare. AreKept bare held header routines (source_in scope.now)) }
{
    let class = String::from_str(alloc, scope.class.as_str())?;
    let mut vars = held;
    let mut funs = routines.funs;
    keep_used(alloc, scope, &mut vars, &mut funs)?;
    Ok(BareActor {
        class,
        ins: header.ins,
        outs: header.outs,
        vars,
        funs,
        procs: routines.procs,
    })
}

/// An actor of these parts, whose functions and procedures break no rule.
fn kept_actor(names: &Names, scope: &Scope, bare: BareActor) -> Result<Bound, Front>
    requires few_ins { length bare.ins.items ≤ max_ports }
    requires few_outs { length bare.outs.items ≤ max_ports }
    ensures { FindsKept result bare scope.now (names_view names.now) }
{
    check_scalars(&bare.vars, scope)?;
    built(names, bare, scope)
}

/// What is said of a fault of functions and procedures: where it is that something isn't constant, another rule that is
/// broken inside, if there is one.
fn inside_fault(
    names: &Names,
    funs: &[DeclaredFun],
    scope: &Scope,
    bare: &BareActor,
    fault: Front,
) -> Front
    requires few_ins { length bare.now.ins.items ≤ max_ports }
    requires few_outs { length bare.now.outs.items ≤ max_ports }
    requires funs { fun_decls funs.now ≡ all_funs (source_in scope.now) }
    ensures { TellsFault fault result bare.now scope.now (names_view names.now) }
{
    if !lacks(fault) {
        return fault;
    }
    match sift_inside(names, funs, scope, bare) {
        Ok(()) => fault,
        Err(other) => other,
    }
}

/// The actor of parts whose heads break no rule, over the names that are seen inside it. What isn't constant is a fault
/// only if nothing else is broken inside.
pub(crate) fn actor_inside(
    names: &Names,
    funs: &[DeclaredFun],
    scope: &Scope,
    held: Vec<BoundVar>,
    header: Header,
    routines: Routines,
) -> Result<Bound, Front>
    requires few_ins { length header.ins.items ≤ max_ports }
    requires few_outs { length header.outs.items ≤ max_ports }
    requires funs { fun_decls funs.now ≡ all_funs (source_in scope.now) }
    ensures { (gs : List Given) (owner : Spot)
        → ArePartsIn header routines (names_view names.now) (source_in scope.now) gs owner
        → (all_valued (source_in scope.now) gs owner).held ≡ map var_view held.items
        → FindsInside result (source_in scope.now) gs owner }
{
    let Ok(bare) = bare_of(names.alloc, scope, held, header, routines) else {
        return Err(Front::Memory);
    };
    match check_routines(names, funs, &bare.procs, scope) {
        Ok(()) => kept_actor(names, scope, bare),
        Err(fault) => Err(inside_fault(names, funs, scope, &bare, fault)),
    }
}
