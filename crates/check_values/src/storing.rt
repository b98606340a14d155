//! Values that are stored in a type.

ghost use Rattle.std.specs.Prelude.{◌≡◌, IfOk};
ghost use Rattle.rvc_base.specs.Arithmetic.{truth};
ghost use Rattle.rvc_base.specs.Storing.{IsSize};
ghost use Rattle.cal_model.specs.Value.{IsType, Single, of_number, stored, stored_each};
ghost use Rattle.cal_model.specs.View.{shape_view, value_view, values_view};
ghost use Rattle.check_values.specs.Stored.{AreStored};

use crate::copied::copy;
use cal_model::{Shape, Value, Values};
use rvc_base::{Memory, Num, Scalar, conv};
use std::alloc::Global;

/// A number as a value of a type, of which it is one.
pub(crate) fn of_number(t: Scalar, number: Num) -> Value
    ensures { value_view result ≡ of_number t number }
{
    match t {
        Scalar::Bool => Value::Bool(number != 0),
        Scalar::Int(_) => Value::Num(number),
        Scalar::Uint(_) => Value::Num(number),
    }
}

/// A truth value as a number.
fn number_of(flag: bool) -> Num
    ensures { result ≡ truth flag }
{
    if flag { 1 } else { 0 }
}

/// What a variable of a type holds once the value is stored in it.
///
/// # Errors
///
/// `Memory` if memory runs out.
#[cycle(stored)]
pub fn stored(alloc: Global, t: &Shape, value: &Value) -> Result<Value, Memory>
    requires { IsType (shape_view t.now) }
    ensures { IfOk result (λ kept. value_view kept
        ≡ stored (shape_view t.now) (value_view value.now)) }
{
    match t {
        Shape::Scalar(t) => stored_single(alloc, *t, value),
        Shape::List(_, items) => match value {
            Value::List(values) => Ok(Value::List(stored_list(alloc, items, values)?)),
            _ => copy(alloc, value),
        },
    }
}

/// What a variable of a single type holds once the value is stored in it.
fn stored_single(alloc: Global, t: Scalar, value: &Value) -> Result<Value, Memory>
    requires { IsSize t }
    ensures { IfOk result (λ kept. value_view kept ≡ stored (Single t) (value_view value.now)) }
{
    match value {
        Value::Num(number) => Ok(of_number(t, conv(t, *number))),
        Value::Bool(truth) => Ok(of_number(t, conv(t, number_of(*truth)))),
        Value::List(_) => copy(alloc, value),
    }
}

/// A list stored item by item.
#[cycle(stored)]
fn stored_list(alloc: Global, t: &Shape, values: &Values) -> Result<Values, Memory>
    requires { IsType (shape_view t.now) }
    ensures { IfOk result (λ kept. values_view kept
        ≡ stored_each (shape_view t.now) (values_view values.now)) }
{
    let items = stored_each(alloc, t, &values.items)?;
    Ok(Values { items })
}

/// Values stored one by one.
#[cycle(stored)]
fn stored_each(alloc: Global, t: &Shape, values: &[Value]) -> Result<Vec<Value>, Memory>
    requires { IsType (shape_view t.now) }
    ensures { IfOk result (λ kept. AreStored t.now values.now kept.items) }
{
    let mut items = Vec::new(alloc);
    for value in values {
        items.push(stored(alloc, t, value)?)?;
    }
    Ok(items)
}
