//! Kinds of expressions, and types of variables.

ghost use Rattle.std.specs.Prelude.{◌≡◌, IfOk};
ghost use Rattle.cal_model.specs.Value.{kind_of_type};
ghost use Rattle.cal_model.specs.View.{kind_view, shape_view};

use rvc_base::{Memory, Scalar};
use std::alloc::Global;

/// The most scalars of a list, and the most items.
pub const MAX_LIST_SCALARS: u32 = 16_384;

/// What an expression can be: a number, a truth value, or a list of so many values of one kind.
#[derive(Debug, Drop)]
pub enum Kind {
    Num,
    Bool,
    List(u32, Box<Kind>),
}

/// The type of a variable: that of single values, or of lists of so many items of one type.
#[derive(Debug, Drop)]
pub enum Shape {
    Scalar(Scalar),
    List(u32, Box<Shape>),
}

/// The kind of the values of a type.
///
/// # Errors
///
/// `Memory` if memory runs out.
pub fn kind_of_type(alloc: Global, t: &Shape) -> Result<Kind, Memory>
    ensures { IfOk result (λ kind. kind_view kind ≡ kind_of_type (shape_view t.now)) }
{
    match t {
        Shape::Scalar(Scalar::Bool) => Ok(Kind::Bool),
        Shape::Scalar(Scalar::Int(_)) => Ok(Kind::Num),
        Shape::Scalar(Scalar::Uint(_)) => Ok(Kind::Num),
        Shape::List(size, items) => {
            let items = kind_of_type(alloc, items)?;
            Ok(Kind::List(*size, Box::new(alloc, items)?))
        }
    }
}
