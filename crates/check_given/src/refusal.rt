//! Rules that are broken at a place.

ghost use Rattle.std.specs.Prelude.{◌≡◌};

use rvc_base::{Front, Place, Refusal, Rule};

/// A rule that is broken at a place.
pub fn refused(rule: Rule, place: Place) -> Front
    ensures { result ≡ Front.Refused (record { rule = rule; place = place }) }
{
    Front::Refused(Refusal { rule, place })
}
