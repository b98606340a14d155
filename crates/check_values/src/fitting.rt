//! Which values are of a kind.

ghost use Rattle.std.specs.Prelude.{◌≡◌, map};
ghost use Rattle.cal_model.specs.View.{in_order, kind_view, value_view};
ghost use Rattle.cal_check.specs.Constants.{are_like_values, has_kind, have_kind, is_like_value};

use cal_model::{Kind, Value};

/// Whether a value is of a kind.
#[cycle(kind)]
pub fn has_kind(k: &Kind, value: &Value) -> bool
    ensures { result ≡ has_kind (kind_view k.now) (value_view value.now) }
{
    match value {
        Value::Num(_) => matches!(k, Kind::Num),
        Value::Bool(_) => matches!(k, Kind::Bool),
        Value::List(values) => match k {
            Kind::List(n, items) => {
                values.items.len() == *n as usize && have_kind(items, &values.items)
            }
            _ => false,
        },
    }
}

/// Whether all values are of a kind.
#[cycle(kind)]
fn have_kind(k: &Kind, values: &[Value]) -> bool
    ensures { result ≡ have_kind (kind_view k.now) (in_order (map value_view values.now)) }
{
    let mut rest = values;
    'items: while let Some((first, others)) = rest.split_first() {
        if !has_kind(k, first) {
            return false;
        }
        rest = others;
    }
    true
}

/// Whether a value is of a kind, but for the lengths of lists.
#[cycle(like)]
pub fn is_like_value(k: &Kind, value: &Value) -> bool
    ensures { result ≡ is_like_value (kind_view k.now) (value_view value.now) }
{
    match value {
        Value::Num(_) => matches!(k, Kind::Num),
        Value::Bool(_) => matches!(k, Kind::Bool),
        Value::List(values) => match k {
            Kind::List(_, items) => are_like_values(items, &values.items),
            _ => false,
        },
    }
}

/// Whether all values are.
#[cycle(like)]
fn are_like_values(k: &Kind, values: &[Value]) -> bool
    ensures { result ≡ are_like_values (kind_view k.now) (in_order (map value_view values.now)) }
{
    let mut rest = values;
    'items: while let Some((first, others)) = rest.split_first() {
        if !is_like_value(k, first) {
            return false;
        }
        rest = others;
    }
    true
}
