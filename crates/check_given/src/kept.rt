//! Values as parameters hold them.

ghost use Rattle.std.specs.Prelude.{◌≡◌, IfOk, None, Some};
ghost use Rattle.cal_check.specs.Variables.{given_broken, given_value};
ghost use Rattle.cal_model.specs.Value.{HasKind, IsType, kind_of_type};
ghost use Rattle.cal_model.specs.View.{kind_view, shape_view, value_view};
ghost use Rattle.check_given.specs.Given.{given_of};
ghost use Rattle.check_given.specs.Judging.{GivenStored};

use crate::refusal::refused;
use cal_model::{Kind, Shape, Value};
use check_values::{has_kind, is_like_value, stored};
use fnl_tree::LeafValue;
use rvc_base::{Front, Memory, Rule};
use std::alloc::Global;

/// What a parameter of a type and its kind holds once the value is stored in it.
///
/// # Errors
///
/// `Refused` at the value: T5 if its lists have other lengths than those of the type, T1 if it is of another kind.
/// `Memory` if memory runs out.
pub fn given_stored(alloc: Global, t: &Shape, k: &Kind, given: &LeafValue) -> Result<Value, Front>
    requires allowed { IsType (shape_view t.now) }
    requires kind { kind_view k.now ≡ kind_of_type (shape_view t.now) }
    ensures stored { GivenStored result
        (given_value (Some (given_of given.now)) (shape_view t.now) None)
        (given_broken (Some (given_of given.now)) (shape_view t.now)) }
    ensures kind { IfOk result (λ v. HasKind (kind_of_type (shape_view t.now)) (value_view v)) }
{
    if has_kind(k, &given.value) {
        return match stored(alloc, t, &given.value) {
            Ok(value) => Ok(value),
            Err(Memory) => Err(Front::Memory),
        };
    }
    if is_like_value(k, &given.value) {
        return Err(refused(Rule::WRONG_LENGTH, given.place));
    }
    Err(refused(Rule::WRONG_KIND, given.place))
}
