//! Types: copies of them, and how many scalars their values have.

ghost use Rattle.std.specs.Prelude.{◌≡◌, IfOk};
ghost use Rattle.cal_model.specs.Value.{IsType, scalars_of_type};
ghost use Rattle.cal_model.specs.View.{shape_view};
ghost use Rattle.action_lower.specs.Seats.{pattern_shape};
ghost use Rattle.action_lower.specs.Sending.{items_of_any};

use cal_model::Shape;
use rvc_base::Scalar;
use std::alloc::{AllocError, Global};

/// The same type once more.
pub(crate) fn copy_shape(alloc: Global, t: &Shape) -> Result<Shape, AllocError>
    ensures { IfOk result (λ copy. shape_view copy ≡ shape_view t.now) }
{
    match t {
        Shape::Scalar(kind) => Ok(Shape::Scalar(*kind)),
        Shape::List(size, items) => {
            let items = copy_shape(alloc, items)?;
            Ok(Shape::List(*size, Box::new(alloc, items)?))
        }
    }
}

/// How many scalars the values of a type have.
pub(crate) fn scalars(t: &Shape) -> u32
    requires { IsType (shape_view t.now) }
    ensures { result ≡ scalars_of_type (shape_view t.now) }
{
    match t {
        Shape::Scalar(_) => 1,
        Shape::List(size, items) => *size * scalars(items),
    }
}

/// The type of what a name of a pattern stands for.
pub(crate) fn pattern_shape(
    alloc: Global,
    kind: Scalar,
    repeat: Option<u32>,
) -> Result<Shape, AllocError>
    ensures { IfOk result (λ shape. shape_view shape ≡ pattern_shape kind repeat) }
{
    match repeat {
        Some(times) => Ok(Shape::List(times, Box::new(alloc, Shape::Scalar(kind))?)),
        None => Ok(Shape::Scalar(kind)),
    }
}

/// A type of lists of so many single values; of which type these are doesn't matter to the code that fills cells.
pub(crate) fn items_of_any(alloc: Global, count: u32) -> Result<Shape, AllocError>
    ensures { IfOk result (λ shape. shape_view shape ≡ items_of_any count) }
{
    Ok(Shape::List(count, Box::new(alloc, Shape::Scalar(Scalar::Bool))?))
}
