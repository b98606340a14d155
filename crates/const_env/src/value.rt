//! Values that are copied and stored.

ghost use Rattle.std.specs.Prelude.{◌≡◌, IfOk, map, true};
ghost use Rattle.rvc_base.specs.Arithmetic.{is_true, truth};
ghost use Rattle.cal_model.specs.Value.{Items, Single, of_number, repeated, stored, stored_each, zero_of};
ghost use Rattle.cal_model.specs.View.{in_order, shape_view, value_view, values_view};
ghost use Rattle.const_env.specs.Sizes.{is_size, is_sized};

use cal_model::{Shape, Value, Values};
use rvc_base::{Memory, Num, Scalar, conv};
use std::alloc::Global;

/// An equal value.
///
/// # Errors
///
/// `Memory` if memory runs out.
#[cycle(copy)]
pub fn copy(alloc: Global, value: &Value) -> Result<Value, Memory>
    ensures { IfOk result (λ copied. value_view copied ≡ value_view value.now) }
{
    match value {
        Value::Num(number) => Ok(Value::Num(*number)),
        Value::Bool(truth) => Ok(Value::Bool(*truth)),
        Value::List(values) => Ok(Value::List(copy_all(alloc, values)?)),
    }
}

/// Equal values in the same order.
#[cycle(copy)]
fn copy_all(alloc: Global, values: &Values) -> Result<Values, Memory>
    ensures { IfOk result (λ copied. values_view copied ≡ values_view values.now) }
{
    let mut items = Vec::new(alloc);
    for value in &values.items {
        items.push(copy(alloc, value)?)?;
    }
    Ok(Values { items })
}

/// The list of values.
pub fn list_of(items: Vec<Value>) -> Value
    ensures { value_view result ≡ Items (in_order (map value_view items.items)) }
{
    Value::List(Values { items })
}

/// A number as a value of a type, of which it is one.
pub(crate) fn of_number(t: Scalar, number: Num) -> Value
    ensures { value_view result ≡ of_number t number }
{
    match t {
        Scalar::Bool => Value::Bool(number != 0),
        Scalar::Int(_) => Value::Num(number),
        Scalar::Uint(_) => Value::Num(number),
    }
}

/// A truth value as a number.
fn number_of(flag: bool) -> Num
    ensures { result ≡ truth flag }
{
    if flag { 1 } else { 0 }
}

/// What a variable of a type holds once the value is stored in it.
#[cycle(stored)]
pub fn stored(alloc: Global, t: &Shape, value: &Value) -> Result<Value, Memory>
    requires { is_sized (shape_view t.now) ≡ true }
    ensures { IfOk result (λ kept. value_view kept
        ≡ stored (shape_view t.now) (value_view value.now)) }
{
    match t {
        Shape::Scalar(t) => stored_single(alloc, *t, value),
        Shape::List(_, items) => match value {
            Value::List(values) => Ok(Value::List(stored_list(alloc, items, values)?)),
            _ => copy(alloc, value),
        },
    }
}

/// What a variable of a single type holds once the value is stored in it.
#[tactic(auto, using(crate::proofs::Tested::size_holds))]
pub fn stored_single(alloc: Global, t: Scalar, value: &Value) -> Result<Value, Memory>
    requires { is_size t ≡ true }
    ensures { IfOk result (λ kept. value_view kept ≡ stored (Single t) (value_view value.now)) }
{
    match value {
        Value::Num(number) => Ok(of_number(t, conv(t, *number))),
        Value::Bool(truth) => Ok(of_number(t, conv(t, number_of(*truth)))),
        Value::List(_) => copy(alloc, value),
    }
}

/// A list stored item by item.
#[cycle(stored)]
fn stored_list(alloc: Global, t: &Shape, values: &Values) -> Result<Values, Memory>
    requires { is_sized (shape_view t.now) ≡ true }
    ensures { IfOk result (λ kept. values_view kept
        ≡ stored_each (shape_view t.now) (values_view values.now)) }
{
    let items = stored_each(alloc, t, &values.items)?;
    Ok(Values { items })
}

/// Values stored one by one.
#[cycle(stored)]
fn stored_each(alloc: Global, t: &Shape, values: &[Value]) -> Result<Vec<Value>, Memory>
    requires { is_sized (shape_view t.now) ≡ true }
    ensures { IfOk result (λ kept. in_order (map value_view kept.items)
        ≡ stored_each (shape_view t.now) (in_order (map value_view values.now))) }
{
    let mut items = Vec::new(alloc);
    for value in values {
        items.push(stored(alloc, t, value)?)?;
    }
    Ok(items)
}

/// What a variable of a type holds that is declared without a value.
#[cycle(zero)]
pub fn zero_of(alloc: Global, t: &Shape) -> Result<Value, Memory>
    ensures { IfOk result (λ zero. value_view zero ≡ zero_of (shape_view t.now)) }
{
    match t {
        Shape::Scalar(t) => Ok(of_number(*t, 0)),
        Shape::List(size, items) => Ok(Value::List(zeros(alloc, *size, items)?)),
    }
}

/// So many of what a variable of a type holds that is declared without a value.
#[tactic(auto, using(crate::proofs::Lists::zeros_more))]
#[cycle(zero)]
fn zeros(alloc: Global, size: u32, t: &Shape) -> Result<Values, Memory>
    ensures { IfOk result (λ zeros. values_view zeros
        ≡ repeated size (zero_of (shape_view t.now))) }
{
    let mut items = Vec::new(alloc);
    for _place in 0..size {
        items.push(zero_of(alloc, t)?)?;
    }
    Ok(Values { items })
}
