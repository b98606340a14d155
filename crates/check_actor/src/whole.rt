//! The whole check.

ghost use Rattle.std.specs.Prelude.{◌≡◌, [], map, true};
ghost use Rattle.cal_check.specs.Actors.{all_funs, all_valued, around_of, declared_vars};
ghost use Rattle.cal_check.specs.Sources.{names_of_source};
ghost use Rattle.cal_check.specs.Variables.{seen};
ghost use Rattle.cal_model.specs.Sound.{AreDistinct};
ghost use Rattle.const_env.specs.Counting.{names_view};
ghost use Rattle.check_functions.specs.Known.{fun_decls, names_differ};
ghost use Rattle.check_variable.specs.Valuing.{IsValued};
ghost use Rattle.check_given.specs.Given.{all_given, spot_of};
ghost use Rattle.check_actor.specs.Checked.{IsChecked, IsComplete};
ghost use Rattle.check_actor.specs.Early.{IsEarly, wrongly_given};
ghost use Rattle.check_actor.specs.Members.{FindsMembers};
ghost use Rattle.check_actor.specs.Own.{IsCheckedBehind, TellsFunctions};
ghost use Rattle.check_actor.specs.Parts.{header_names};
ghost use Rattle.check_actor.specs.Phases.{IsHeaderOf};
ghost use Rattle.check_actor.specs.Sources.{source_in};

use crate::collect::declared_funs;
use crate::early::{Early, check_given, early_values};
use crate::heading::header_told;
use crate::inside::actor_inside;
use crate::own::{functions_first, said_behind};
use crate::routines::routines_of;
use crate::said::{said_first, settled, untyped};
use cal_imports::Scope;
use cal_model::Bound;
use check_functions::{names_at_rest, names_seen};
use check_given::GivenValues;
use check_variable::{Header, Told, Valued};
use const_eval::Names;
use fnl_tree::LeafValue;
use rvc_base::{Front, Place};
use std::alloc::Global;

/// The actor of a header that breaks no rule, if all its variables have types.
fn members_of(
    told: Told<'_>,
    names: &Names,
    scope: &Scope,
    values: Valued,
    header: Header,
) -> Result<Bound, Front>
    requires funs { fun_decls told.funs.now ≡ all_funs (source_in scope.now) }
    requires names { names_view names.now
        ≡ (around_of (source_in scope.now) (all_given told.given.now) (spot_of told.owner)).names }
    requires header { IsHeaderOf header (source_in scope.now)
        (header_names (source_in scope.now) (all_given told.given.now) (spot_of told.owner)) }
    requires values { IsValued (declared_vars (source_in scope.now)) values
        (all_valued (source_in scope.now) (all_given told.given.now) (spot_of told.owner)) }
    ensures { FindsMembers result (source_in scope.now) (all_given told.entry.given.now) (spot_of told.entry.owner) }
{
    let routines = routines_of(names, told.funs, scope)?;
    actor_inside(names, told.funs, scope, values.held, header, routines)
}

/// The actor of a header that breaks no rule.
fn check_members(
    told: Told<'_>,
    names: &Names,
    scope: &Scope,
    values: Valued,
    header: Header,
) -> Result<Bound, Front>
    requires funs { fun_decls told.funs.now ≡ all_funs (source_in scope.now) }
    requires names { names_view names.now
        ≡ (around_of (source_in scope.now) (all_given told.given.now) (spot_of told.owner)).names }
    requires distinct { AreDistinct (map (λ x. x.name) (declared_vars (source_in scope.now))) }
    requires given { wrongly_given (source_in scope.now) (all_given told.given.now) ≡ [] }
    requires header { IsHeaderOf header (source_in scope.now)
        (header_names (source_in scope.now) (all_given told.given.now) (spot_of told.owner)) }
    requires values { IsValued (declared_vars (source_in scope.now)) values
        (all_valued (source_in scope.now) (all_given told.given.now) (spot_of told.owner)) }
    ensures { IsCheckedBehind result (source_in scope.now) (all_given told.entry.given.now) (spot_of told.entry.owner) }
{
    let noted = values.first_broken();
    let rest = values.not_constant();
    if !values.whole {
        return Err(untyped(rest, told.owner));
    }
    match members_of(told, names, scope, values, header) {
        Ok(found) => settled(rest, found),
        Err(fault) => Err(said_first(noted, fault)),
    }
}

/// The actor of variables that break no rule, but perhaps that something isn't constant.
fn check_valued(told: Told<'_>, names: &Names, scope: &Scope, early: Early) -> Result<Bound, Front>
    requires funs { fun_decls told.funs.now ≡ all_funs (source_in scope.now) }
    requires names { names_view names.now
        ≡ (around_of (source_in scope.now) (all_given told.given.now) (spot_of told.owner)).names }
    requires distinct { AreDistinct (names_of_source (source_in scope.now)) }
    requires early { IsEarly early (source_in scope.now) (all_given told.given.now) (spot_of told.owner) }
    ensures { IsCheckedBehind result (source_in scope.now) (all_given told.entry.given.now) (spot_of told.entry.owner) }
{
    check_given(told, scope)?;
    let noted = early.values.first_broken();
    let header = header_told(told.alloc, &early.header, scope, noted)?;
    check_members(told, names, scope, early.values, header)
}

/// The same. What functions break of themselves is said first.
fn check_early(told: Told<'_>, scope: &Scope, early: Early) -> Result<Bound, Front>
    requires funs { fun_decls told.funs.now ≡ all_funs (source_in scope.now) }
    requires distinct { AreDistinct (names_of_source (source_in scope.now)) }
    requires early { IsEarly early (source_in scope.now) (all_given told.given.now) (spot_of told.owner) }
    ensures { IsChecked result (source_in scope.now) (all_given told.entry.given.now) (spot_of told.entry.owner) }
{
    let Ok(env) = names_at_rest(told.alloc, &early.values.known, told.funs) else {
        return Err(Front::Memory);
    };
    let names = Names::outermost(told.alloc, &env);
    match check_valued(told, &names, scope, early) {
        Ok(found) => Ok(found),
        Err(fault) => Err(said_behind(&names, told.funs, fault)),
    }
}

/// What is said of a rule that the variables break: what functions break of themselves, over no variables, is said first.
fn early_fault(told: Told<'_>, fault: Front) -> Front
    requires { names_differ (fun_decls told.funs.now) ≡ true }
    ensures { TellsFunctions (fun_decls told.entry.funs.now) (seen (fun_decls told.entry.funs.now) []) fault result }
{
    let Ok(env) = names_seen(told.alloc, &[], told.funs) else {
        return Front::Memory;
    };
    functions_first(&Names::outermost(told.alloc, &env), told.funs, fault)
}

/// The same as [`check`], over the functions that are declared.
fn check_told(told: Told<'_>, scope: &Scope) -> Result<Bound, Front>
    requires funs { fun_decls told.funs.now ≡ all_funs (source_in scope.now) }
    requires distinct { AreDistinct (names_of_source (source_in scope.now)) }
    ensures { IsChecked result (source_in scope.now) (all_given told.entry.given.now) (spot_of told.entry.owner) }
{
    match early_values(told, scope) {
        Ok(early) => check_early(told, scope, early),
        Err(fault) => Err(early_fault(told, fault)),
    }
}

/// The same as [`check`], over values that have an index.
fn check_over<'a>(
    alloc: Global,
    scope: &'a Scope,
    given: &'a GivenValues<'a>,
    owner: Place,
) -> Result<Bound, Front>
    requires { AreDistinct (names_of_source (source_in scope.now)) }
    ensures { IsChecked result (source_in scope.now) (all_given given.now) (spot_of owner) }
{
    let Ok(funs) = declared_funs(alloc, scope) else {
        return Err(Front::Memory);
    };
    check_told(
        Told {
            alloc,
            given,
            owner,
            funs: &funs,
        },
        scope,
    )
}

/// The actor that a scope is over the values given to its parameters (ISO/IEC 23001-4, RVC-CAL: actors); `owner` is the
/// place of a parameter that has neither a value nor a default. The texts that stand for its variables, functions and
/// procedures differ, as those that [`resolve`](cal_imports::resolve) answers.
///
/// # Errors
///
/// `Refused` with a rule that the actor breaks, and its place: an actor that conforms is never refused. `Memory` if memory
/// runs out.
pub fn check(
    alloc: Global,
    scope: &Scope,
    given: &[LeafValue],
    owner: Place,
) -> Result<Bound, Front>
    requires { AreDistinct (names_of_source (source_in scope.now)) }
    ensures checked { IsChecked result (source_in scope.now) (all_given given.now) (spot_of owner) }
    ensures complete { IsComplete result (source_in scope.now) (all_given given.now) (spot_of owner) }
{
    let Ok(given) = GivenValues::new(alloc, given) else {
        return Err(Front::Memory);
    };
    check_over(alloc, scope, &given, owner)
}
