//! What the variables of an actor come to, and what its header sees.

ghost use Rattle.std.specs.Prelude.{◌≡◌, IfErr, true};
ghost use Rattle.cal_check.specs.Actors.{all_funs, all_valued, before_members, declared_vars};
ghost use Rattle.const_env.specs.Held.{names_in};
ghost use Rattle.check_functions.specs.Known.{fun_decls, names_differ};
ghost use Rattle.check_given.specs.Causes.{Finds, SaysRule};
ghost use Rattle.check_given.specs.Given.{all_given, spot_of};
ghost use Rattle.check_variable.specs.Valuing.{IsValued, Values};
ghost use Rattle.check_actor.specs.Early.{FindsEarly, vars_before, wrongly_given};
ghost use Rattle.check_actor.specs.Parts.{header_names};
ghost use Rattle.check_actor.specs.Sources.{source_in};

use crate::collect::{declared_before, declared_own, declared_params};
use crate::values::value_declared;
use cal_imports::Scope;
use check_functions::names_seen;
use check_variable::{Told, Valued, given_rightly, value_all};
use const_eval::Env;
use rvc_base::Front;

/// The names that an actor's header sees, and what all its variables come to.
#[derive(Drop)]
pub(crate) struct Early {
    pub header: Env,
    pub values: Valued,
}

/// Adds the actor's own variables behind those of other files and the parameters.
fn add_own(told: Told<'_>, scope: &Scope, values: &mut Valued) -> Result<(), Front>
    requires funs { fun_decls told.funs.now ≡ all_funs (source_in scope.now) }
    requires differ { names_differ (fun_decls told.funs.now) ≡ true }
    requires before { IsValued (vars_before (source_in scope.now)) values.old
        (before_members (source_in scope.now) (all_given told.given.now) (spot_of told.owner)) }
    ensures { Values result (declared_vars (source_in scope.now)) values.new
        (all_valued (source_in scope.now) (all_given told.entry.given.now) (spot_of told.entry.owner)) }
{
    let Ok(own) = declared_own(told.alloc, scope) else {
        return Err(Front::Memory);
    };
    value_all(told, values, &own)
}

/// The same, with the actor's own variables behind those of other files and the parameters.
fn with_own(told: Told<'_>, scope: &Scope, header: Env, before: Valued) -> Result<Early, Front>
    requires funs { fun_decls told.funs.now ≡ all_funs (source_in scope.now) }
    requires differ { names_differ (fun_decls told.funs.now) ≡ true }
    requires header { names_in header
        ≡ header_names (source_in scope.now) (all_given told.given.now) (spot_of told.owner) }
    requires before { IsValued (vars_before (source_in scope.now)) before
        (before_members (source_in scope.now) (all_given told.given.now) (spot_of told.owner)) }
    ensures { FindsEarly result (source_in scope.now) (all_given told.entry.given.now) (spot_of told.entry.owner) }
{
    let mut values = before;
    match add_own(told, scope, &mut values) {
        Ok(()) => Ok(Early { header, values }),
        Err(fault) => Err(fault),
    }
}

/// What the variables of an actor come to, and what its header sees: what other files declare, and the parameters.
pub(crate) fn early_values(told: Told<'_>, scope: &Scope) -> Result<Early, Front>
    requires funs { fun_decls told.funs.now ≡ all_funs (source_in scope.now) }
    requires differ { names_differ (fun_decls told.funs.now) ≡ true }
    ensures { FindsEarly result (source_in scope.now) (all_given told.entry.given.now) (spot_of told.entry.owner) }
{
    let Ok(vars) = declared_before(told.alloc, scope) else {
        return Err(Front::Memory);
    };
    let before = value_declared(told, &vars)?;
    let Ok(header) = names_seen(told.alloc, &before.known, told.funs) else {
        return Err(Front::Memory);
    };
    with_own(told, scope, header, before)
}

/// That each value is given to a parameter, and none of these is given two.
pub(crate) fn check_given(told: Told<'_>, scope: &Scope) -> Result<(), Front>
    ensures found { Finds result (wrongly_given (source_in scope.now) (all_given told.entry.given.now)) }
    ensures said { IfErr result (λ fault. SaysRule fault) }
{
    let Ok(params) = declared_params(told.alloc, scope) else {
        return Err(Front::Memory);
    };
    given_rightly(told.alloc, told.given, &params)
}
