//! Values that are copied.

ghost use Rattle.std.specs.Prelude.{◌≡◌, IfOk};
ghost use Rattle.cal_model.specs.View.{value_view, values_view};

use cal_model::{Value, Values};
use rvc_base::Memory;
use std::alloc::Global;

/// An equal value.
///
/// # Errors
///
/// `Memory` if memory runs out.
#[cycle(copy)]
pub fn copy(alloc: Global, value: &Value) -> Result<Value, Memory>
    ensures { IfOk result (λ copied. value_view copied ≡ value_view value.now) }
{
    match value {
        Value::Num(number) => Ok(Value::Num(*number)),
        Value::Bool(truth) => Ok(Value::Bool(*truth)),
        Value::List(values) => Ok(Value::List(copy_all(alloc, values)?)),
    }
}

/// Equal values in the same order.
#[cycle(copy)]
fn copy_all(alloc: Global, values: &Values) -> Result<Values, Memory>
    ensures { IfOk result (λ copied. values_view copied ≡ values_view values.now) }
{
    let mut items = Vec::new(alloc);
    for value in &values.items {
        items.push(copy(alloc, value)?)?;
    }
    Ok(Values { items })
}
