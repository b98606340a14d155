//! Values that are equal.

ghost use Rattle.std.specs.Prelude.{◌≡◌, map};
ghost use Rattle.cal_model.specs.View.{in_order, value_view};
ghost use Rattle.check_leaves.specs.Equal.{are_equal, is_equal, is_number, is_truth};

use cal_model::Value;
use rvc_base::Num;

/// Whether a value is this number.
fn is_number(number: Num, value: &Value) -> bool
    ensures { result ≡ is_number number (value_view value.now) }
{
    match value {
        Value::Num(other) => number == *other,
        _ => false,
    }
}

/// Whether a value is this truth value.
fn is_truth(truth: bool, value: &Value) -> bool
    ensures { result ≡ is_truth truth (value_view value.now) }
{
    match value {
        Value::Bool(other) => truth == *other,
        _ => false,
    }
}

/// Whether two values are equal.
#[cycle(equal)]
pub(crate) fn is_equal(value: &Value, other: &Value) -> bool
    ensures { result ≡ is_equal (value_view value.now) (value_view other.now) }
{
    match value {
        Value::Num(number) => is_number(*number, other),
        Value::Bool(truth) => is_truth(*truth, other),
        Value::List(values) => match other {
            Value::List(others) => are_equal(&values.items, &others.items),
            _ => false,
        },
    }
}

/// Whether two lists have equal values in the same order.
#[cycle(equal)]
fn are_equal(values: &[Value], others: &[Value]) -> bool
    ensures { result ≡ are_equal (in_order (map value_view values.now))
        (in_order (map value_view others.now)) }
{
    let mut rest = values;
    let mut left = others;
    'items: while let Some((first, more)) = rest.split_first() {
        let Some((that, many)) = left.split_first() else {
            return false;
        };
        if !is_equal(first, that) {
            return false;
        }
        rest = more;
        left = many;
    }
    left.is_empty()
}
