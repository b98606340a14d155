//! Types of lists that differ in the sizes of their numbers alone.

ghost use Rattle.std.specs.Prelude.{◌≡◌};
ghost use Rattle.cal_model.specs.View.{shape_view};
ghost use Rattle.expr_lower.specs.Filling.{alike};
ghost use Rattle.expr_lower.specs.FillWords.{has_no_items};

use cal_model::Shape;

/// Whether two types are of lists of as many items at each depth.
pub fn alike(one: &Shape, other: &Shape) -> bool
    ensures { result ≡ alike (shape_view one.now) (shape_view other.now) }
{
    match one {
        Shape::Scalar(_) => match other {
            Shape::Scalar(_) => true,
            Shape::List(_, _) => false,
        },
        Shape::List(count, items) => match other {
            Shape::Scalar(_) => false,
            Shape::List(many, others) => *count == *many && alike(items, others),
        },
    }
}

/// Whether a type is that of lists without items.
pub(crate) fn has_no_items(t: &Shape) -> bool
    ensures { result ≡ has_no_items (shape_view t.now) }
{
    match t {
        Shape::Scalar(_) => false,
        Shape::List(count, _) => *count == 0,
    }
}
