//! Types that have a scalar.

ghost use Rattle.std.specs.Prelude.{◌≡◌, ◌≤◌};
ghost use Rattle.cal_model.specs.Value.{scalars_of_type};
ghost use Rattle.cal_model.specs.View.{shape_view};

use cal_model::Shape;

/// A type of at least one scalar.
#[derive(Drop)]
pub(crate) struct Filled {
    pub shape: Shape,
    ghost filled: { 1 ≤ scalars_of_type (shape_view shape) },
}

impl Filled {
    /// A type that has a scalar.
    pub fn new(shape: Shape) -> Filled
        requires { 1 ≤ scalars_of_type (shape_view shape) }
        ensures { result.shape ≡ shape }
    {
        Filled { shape }
    }
}
