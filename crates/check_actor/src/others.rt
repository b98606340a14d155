//! Rules that are broken inside an actor besides that something isn't constant.

ghost use Rattle.std.specs.Prelude.{◌≡◌, ◌≤◌, length, map};
ghost use Rattle.cal_ast.specs.View.{function_tree};
ghost use Rattle.cal_check.specs.Actors.{all_funs, funs_broken};
ghost use Rattle.cal_check.specs.Routines.{fun_broken};
ghost use Rattle.cal_check.specs.Variables.{found_in};
ghost use Rattle.cal_model.specs.Sound.{max_ports};
ghost use Rattle.cal_model.specs.View.{proc_view};
ghost use Rattle.const_env.specs.Counting.{names_view};
ghost use Rattle.check_functions.specs.Known.{fun_decls};
ghost use Rattle.check_actor.specs.Parts.{SiftsMembers, SiftsParts};
ghost use Rattle.check_actor.specs.Phases.{procs_found, routines_found};
ghost use Rattle.check_actor.specs.Sifting.{Sifts};
ghost use Rattle.check_actor.specs.Sources.{source_in};

use crate::fault::placed;
use crate::scalars::check_scalars;
use cal_imports::Scope;
use check_build_actor::{BareActor, other_members};
use check_functions::DeclaredFun;
use check_routine::{check_function, check_procedures};
use check_stmt::Procs;
use const_eval::Names;
use rvc_base::Front;

/// What is inside a function of a file, unless something isn't constant there.
pub(crate) fn sift_body(names: &Names, f: DeclaredFun) -> Result<(), Front>
    ensures { Sifts result (found_in f.entry.file
        (fun_broken (function_tree f.entry.decl.now) (names_view names.now))) }
{
    match check_function(names, f.decl, true) {
        Ok(()) => Ok(()),
        Err(fault) => Err(placed(f.file, fault)),
    }
}

/// What is inside functions.
fn sift_bodies(names: &Names, funs: &[DeclaredFun]) -> Result<(), Front>
    ensures { Sifts result (funs_broken (fun_decls funs.now) (names_view names.now)) }
{
    for f in funs {
        sift_body(names, *f)?;
    }
    Ok(())
}

/// What is inside procedures.
fn sift_procedures(names: &Names, procs: &Procs, scope: &Scope) -> Result<(), Front>
    ensures { Sifts result (procs_found (source_in scope.now) (map proc_view procs.now)
        (names_view names.now)) }
{
    match check_procedures(names, procs, &scope.actor.members, true) {
        Ok(()) => Ok(()),
        Err(fault) => Err(placed(scope.file, fault)),
    }
}

/// What is inside functions and procedures.
fn sift_routines(
    names: &Names,
    funs: &[DeclaredFun],
    procs: &Procs,
    scope: &Scope,
) -> Result<(), Front>
    requires { fun_decls funs.now ≡ all_funs (source_in scope.now) }
    ensures { Sifts result (routines_found (source_in scope.now) (map proc_view procs.now)
        (names_view names.now)) }
{
    sift_bodies(names, funs)?;
    sift_procedures(names, procs, scope)
}

/// Actions, the schedule and the priorities of an actor of these parts.
fn sift_members(names: &Names, bare: &BareActor, scope: &Scope) -> Result<(), Front>
    requires few_ins { length bare.now.ins.items ≤ max_ports }
    requires few_outs { length bare.now.outs.items ≤ max_ports }
    ensures { SiftsMembers result bare.now scope.now (names_view names.now) }
{
    match other_members(names, bare, &scope.actor) {
        Ok(()) => Ok(()),
        Err(fault) => Err(placed(scope.file, fault)),
    }
}

/// What is inside an actor of these parts.
pub(crate) fn sift_inside(
    names: &Names,
    funs: &[DeclaredFun],
    scope: &Scope,
    bare: &BareActor,
) -> Result<(), Front>
    requires few_ins { length bare.now.ins.items ≤ max_ports }
    requires few_outs { length bare.now.outs.items ≤ max_ports }
    requires funs { fun_decls funs.now ≡ all_funs (source_in scope.now) }
    ensures { SiftsParts result bare.now scope.now (names_view names.now) }
{
    sift_routines(names, funs, &bare.procs, scope)?;
    check_scalars(&bare.vars, scope)?;
    sift_members(names, bare, scope)
}
