//! How many scalars an actor's variables have.
#![tactic(auto, using(crate::proofs::Counts::capped_product, crate::proofs::Counts::capped_three, crate::proofs::Counts::capped_once))]

ghost use Rattle.std.specs.Prelude.{◌≡◌, ◌*◌, ◌+◌, map};
ghost use Rattle.cal_check.specs.Actors.{scalars_of};
ghost use Rattle.cal_model.specs.Value.{scalars_of_type};
ghost use Rattle.cal_model.specs.View.{shape_view, var_view};
ghost use Rattle.check_given.specs.Causes.{Finds};
ghost use Rattle.check_actor.specs.Phases.{capped, scalars_found};
ghost use Rattle.check_actor.specs.Sources.{source_in};

use cal_imports::Scope;
use cal_model::{BoundVar, Shape};
use rvc_base::{Front, Place, Refusal, Rule};

/// How many scalars the variables of an actor may have.
const MAX_SCALARS: u32 = 65_536;

/// A product, or one more than the limit if it is more.
fn product(a: u32, b: u32) -> u32
    ensures { result ≡ capped (a * b) }
{
    let whole = u64::from(a) * u64::from(b);
    if whole > u64::from(MAX_SCALARS) {
        return MAX_SCALARS + 1;
    }
    whole as u32
}

/// A sum, or one more than the limit if it is more.
fn sum(a: u32, b: u32) -> u32
    ensures { result ≡ capped (a + b) }
{
    let whole = u64::from(a) + u64::from(b);
    if whole > u64::from(MAX_SCALARS) {
        return MAX_SCALARS + 1;
    }
    whole as u32
}

/// How many scalars the values of a type have, or one more than the limit if they are more.
fn scalars_of_type(t: &Shape) -> u32
    ensures { result ≡ capped (scalars_of_type (shape_view t.now)) }
{
    match t {
        Shape::Scalar(_) => 1,
        Shape::List(count, items) => product(*count, scalars_of_type(items)),
    }
}

/// How many scalars variables have, or one more than the limit if they are more.
fn scalars_of(vars: &[BoundVar]) -> u32
    ensures { result ≡ capped (scalars_of (map var_view vars.now)) }
{
    let mut rest = vars;
    let mut found = 0u32;
    'vars: while let Some((first, others)) = rest.split_first() {
        found = sum(found, scalars_of_type(&first.shape));
        rest = others;
    }
    found
}

/// That the variables of an actor have few scalars.
pub(crate) fn check_scalars(vars: &[BoundVar], scope: &Scope) -> Result<(), Front>
    ensures { Finds result (scalars_found (source_in scope.now) (map var_view vars.now)) }
{
    if scalars_of(vars) > MAX_SCALARS {
        let rule = Rule::TOO_MANY_VARIABLES;
        let place = Place {
            file: scope.file,
            offset: scope.actor.at,
        };
        return Err(Front::Refused(Refusal { rule, place }));
    }
    Ok(())
}
