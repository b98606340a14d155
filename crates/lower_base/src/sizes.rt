//! Types whose sizes are allowed.

ghost use Rattle.std.specs.Prelude.{◌≡◌};
ghost use Rattle.cal_model.specs.View.{shape_view};
ghost use Rattle.lower_base.specs.Types.{is_size, numbers_of_items, type_size};

use cal_model::{MAX_LIST_SCALARS, Shape};
use rvc_base::{MAX_SIZE, Scalar};

/// How many numbers a type has, if its sizes are allowed.
pub fn type_size(t: &Shape) -> Option<u32>
    ensures { result ≡ type_size (shape_view t.now) }
{
    match t {
        Shape::Scalar(kind) => { if is_size(*kind) { Some(1) } else { None } }
        Shape::List(count, items) => numbers_of_items(*count, type_size(items)),
    }
}

/// How many numbers so many items have, if a list may have as many.
fn numbers_of_items(count: u32, each: Option<u32>) -> Option<u32>
    ensures { result ≡ numbers_of_items count each }
{
    let each = each?;
    let all = count.checked_mul(each)?;
    if count < 1 || all > MAX_LIST_SCALARS {
        return None;
    }
    Some(all)
}

/// Whether a type of numbers has a size that is allowed.
fn is_size(kind: Scalar) -> bool
    ensures { result ≡ is_size kind }
{
    match kind {
        Scalar::Bool => true,
        Scalar::Int(size) => size >= 1 && size <= MAX_SIZE,
        Scalar::Uint(size) => size >= 1 && size <= MAX_SIZE,
    }
}
