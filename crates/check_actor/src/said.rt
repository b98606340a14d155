//! What is said of an actor in which something isn't constant.

ghost use Rattle.std.specs.Prelude.{◌≡◌, ◌==◌, Some};
ghost use Rattle.rvc_base.specs.Rules.{not_constant};
ghost use Rattle.check_actor.specs.Members.{Settles, not_constant_at, place_left, said_first};

use cal_model::Bound;
use rvc_base::{Front, Place, Refusal, Rule};

/// Something at a place isn't constant.
pub(crate) fn inconstant(place: Place) -> Front
    ensures { result ≡ not_constant_at place }
{
    let rule = Rule::NOT_CONSTANT;
    Front::Refused(Refusal { rule, place })
}

/// Whether a rule is that of what isn't constant.
pub(crate) fn is_not_constant(rule: Rule) -> bool
    ensures { result ≡ (rule.0 == not_constant.0) }
{
    rule.0 == Rule::NOT_CONSTANT.0
}

/// What is said of a refusal behind variables, one of which isn't constant at this place.
fn said_of(place: Place, refusal: Refusal) -> Front
    ensures { result ≡ said_first (Some place) (Front.Refused refusal) }
{
    if is_not_constant(refusal.rule) {
        return inconstant(place);
    }
    Front::Refused(refusal)
}

/// What is said of a fault behind variables, of which the first that isn't constant stands there: where something isn't
/// constant, that is said of the variables.
pub(crate) fn said_first(noted: Option<Place>, fault: Front) -> Front
    ensures { result ≡ said_first noted fault }
{
    let Some(place) = noted else {
        return fault;
    };
    match fault {
        Front::Refused(refusal) => said_of(place, refusal),
        Front::Memory => Front::Memory,
    }
}

/// What is left to say of an actor whose variables have types and whose members break no rule.
pub(crate) fn settled(rest: Option<Place>, found: Bound) -> Result<Bound, Front>
    ensures { Settles rest found result }
{
    match rest {
        Some(place) => Err(inconstant(place)),
        None => Ok(found),
    }
}

/// What is said of an actor some of whose variables have no type.
pub(crate) fn untyped(rest: Option<Place>, owner: Place) -> Front
    ensures { result ≡ not_constant_at (place_left rest owner) }
{
    match rest {
        Some(place) => inconstant(place),
        None => inconstant(owner),
    }
}
