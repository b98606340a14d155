//! Whether 32 bits count the items of a value's lists.

ghost use Rattle.std.specs.Prelude.{◌≡◌};
ghost use Rattle.cal_model.specs.Value.{Items};
ghost use Rattle.cal_model.specs.View.{value_view, values_view};
ghost use Rattle.const_env.specs.Lengths.{is_counted};

use cal_model::{Value, Values};

/// Whether 32 bits count the items of the list that the value is, and of each first item that is a list, so that a
/// kind can say how long they are.
#[cycle(value)]
pub fn is_counted(value: &Value) -> bool
    ensures { result ≡ is_counted (value_view value.now) }
{
    match value {
        Value::Num(_) => true,
        Value::Bool(_) => true,
        Value::List(values) => is_counted_list(values),
    }
}

/// The same of the list of the values.
#[cycle(value)]
fn is_counted_list(values: &Values) -> bool
    ensures { result ≡ is_counted (Items (values_view values.now)) }
{
    match values.items.first() {
        None => true,
        Some(first) => values.items.len() <= u32::MAX as usize && is_counted(first),
    }
}
