//! The heads of an actor's functions and procedures.

ghost use Rattle.std.specs.Prelude.{◌≡◌, map};
ghost use Rattle.cal_check.specs.Actors.{all_funs};
ghost use Rattle.cal_model.specs.View.{proc_view};
ghost use Rattle.const_env.specs.Counting.{names_view};
ghost use Rattle.check_functions.specs.Known.{fun_decls};
ghost use Rattle.check_given.specs.Causes.{Finds};
ghost use Rattle.check_actor.specs.Phases.{FindsHeads, FindsProcs, procs_found, routines_found};
ghost use Rattle.check_actor.specs.Sifting.{SiftsHeads};
ghost use Rattle.check_actor.specs.Sources.{source_in};

use crate::bodies::check_bodies;
use crate::built::{functions, procedures};
use crate::fault::in_file;
use crate::sifting::routines_fault;
use cal_imports::Scope;
use cal_model::BoundFun;
use check_functions::DeclaredFun;
use check_routine::check_procedures;
use check_stmt::Procs;
use const_eval::Names;
use rvc_base::Front;

/// Functions of all files, and the procedures of an actor.
#[derive(Drop)]
pub(crate) struct Routines {
    pub funs: Vec<BoundFun>,
    pub procs: Procs,
}

/// The procedures of an actor.
fn procedures_of(names: &Names, scope: &Scope) -> Result<Procs, Front>
    ensures { FindsProcs result (source_in scope.now) (names_view names.now) }
{
    match procedures(names, &scope.actor.members) {
        Ok(procs) => Ok(procs),
        Err(fault) => Err(in_file(scope.file, fault)),
    }
}

/// The functions and procedures of an actor, whose heads break no rule.
fn first_routines(names: &Names, funs: &[DeclaredFun], scope: &Scope) -> Result<Routines, Front>
    requires { fun_decls funs.now ≡ all_funs (source_in scope.now) }
    ensures { FindsHeads result (source_in scope.now) (names_view names.now) }
{
    let found = functions(names, funs)?;
    let procs = procedures_of(names, scope)?;
    Ok(Routines { funs: found, procs })
}

/// The functions and procedures of an actor, whose heads break no rule. What isn't constant there is a fault only if
/// heads break nothing else.
pub(crate) fn routines_of(
    names: &Names,
    funs: &[DeclaredFun],
    scope: &Scope,
) -> Result<Routines, Front>
    requires { fun_decls funs.now ≡ all_funs (source_in scope.now) }
    ensures { SiftsHeads result (source_in scope.now) (names_view names.now) }
{
    match first_routines(names, funs, scope) {
        Ok(found) => Ok(found),
        Err(fault) => Err(routines_fault(names, funs, scope, fault)),
    }
}

/// What is inside procedures.
fn check_inside_procedures(names: &Names, procs: &Procs, scope: &Scope) -> Result<(), Front>
    ensures { Finds result (procs_found (source_in scope.now) (map proc_view procs.now) (names_view names.now)) }
{
    match check_procedures(names, procs, &scope.actor.members, false) {
        Ok(()) => Ok(()),
        Err(fault) => Err(in_file(scope.file, fault)),
    }
}

/// What is inside functions and procedures.
pub(crate) fn check_routines(
    names: &Names,
    funs: &[DeclaredFun],
    procs: &Procs,
    scope: &Scope,
) -> Result<(), Front>
    requires { fun_decls funs.now ≡ all_funs (source_in scope.now) }
    ensures { Finds result (routines_found (source_in scope.now) (map proc_view procs.now) (names_view names.now)) }
{
    check_bodies(names, funs)?;
    check_inside_procedures(names, procs, scope)
}
