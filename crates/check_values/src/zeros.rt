//! What variables hold that are declared without a value.

ghost use Rattle.std.specs.Prelude.{◌≡◌, IfOk};
ghost use Rattle.cal_model.specs.Value.{repeated, zero_of};
ghost use Rattle.cal_model.specs.View.{shape_view, value_view, values_view};

use crate::storing::of_number;
use cal_model::{Shape, Value, Values};
use rvc_base::Memory;
use std::alloc::Global;

/// What a variable of a type holds that is declared without a value: 0, false, or lists of these.
///
/// # Errors
///
/// `Memory` if memory runs out.
#[cycle(zero)]
pub fn zero_of(alloc: Global, t: &Shape) -> Result<Value, Memory>
    ensures { IfOk result (λ zero. value_view zero ≡ zero_of (shape_view t.now)) }
{
    match t {
        Shape::Scalar(t) => Ok(of_number(*t, 0)),
        Shape::List(size, items) => Ok(Value::List(zero_items(alloc, *size, items)?)),
    }
}

/// So many of what a variable of a type holds that is declared without a value.
#[tactic(auto, using(crate::proofs::Lists::zeros_more))]
#[cycle(zero)]
fn zero_items(alloc: Global, size: u32, t: &Shape) -> Result<Values, Memory>
    ensures { IfOk result (λ zeros. values_view zeros
        ≡ repeated size (zero_of (shape_view t.now))) }
{
    let mut items = Vec::new(alloc);
    for _place in 0..size {
        items.push(zero_of(alloc, t)?)?;
    }
    Ok(Values { items })
}
