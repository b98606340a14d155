//! Types as they are written.

ghost use Rattle.std.specs.Prelude.{◌≡◌, ◌∷◌, [], IfOk, map, option_map};
ghost use Rattle.cal_ast.specs.Tree.{listed};
ghost use Rattle.cal_ast.specs.View.{type_arg_tree, type_tree};
ghost use Rattle.cal_model.specs.View.{shape_view};
ghost use Rattle.expr_lower.specs.ShapeMeant.{items_of_type, list_sized, many_meant, shape_meant};

use crate::types::{literal_size, single_meant, size_of_arg};
use cal_ast::{TypeArg, TypeExpr};
use cal_model::{MAX_LIST_SCALARS, Shape};
use lower_base::scalars;
use std::alloc::{AllocError, Global};

/// The type that a type expression means whatever names mean, if it is seen to mean one that is allowed.
#[cycle(shape_meant)]
pub fn shape_meant(alloc: Global, shape: &TypeExpr) -> Result<Option<Shape>, AllocError>
    ensures { IfOk result (λ t. option_map shape_view t ≡ shape_meant (type_tree shape.now)) }
{
    if let Some(kind) = single_meant(shape) {
        return Ok(Some(Shape::Scalar(kind)));
    }
    if shape.name.text.as_str() != "List" {
        return Ok(None);
    }
    items_of_type(alloc, &shape.args)
}

/// The list of which these are the arguments: the type of its items and how many they are, in either order.
#[cycle(shape_meant)]
fn items_of_type(alloc: Global, args: &[TypeArg]) -> Result<Option<Shape>, AllocError>
    ensures { IfOk result (λ t. option_map shape_view t
        ≡ items_of_type (listed (map type_arg_tree args.now))) }
{
    match args {
        [] => Ok(None),
        [_] => Ok(None),
        [first, second] => two_args(alloc, first, second),
        _ => Ok(None),
    }
}

/// The list of which these two are the arguments.
#[cycle(shape_meant)]
fn two_args(alloc: Global, first: &TypeArg, second: &TypeArg) -> Result<Option<Shape>, AllocError>
    ensures { IfOk result (λ t. option_map shape_view t ≡ items_of_type
        (listed (type_arg_tree first.now ∷ type_arg_tree second.now ∷ []))) }
{
    match first {
        TypeArg::Shape { name: _, shape } => many_meant(alloc, size_of_arg(second), shape),
        TypeArg::Value { name: _, value } => match second {
            TypeArg::Shape { name: _, shape } => many_meant(alloc, literal_size(value), shape),
            TypeArg::Value { name: _, value: _ } => Ok(None),
        },
    }
}

/// The list of as many items as a size that is written.
#[cycle(shape_meant)]
fn many_meant(
    alloc: Global,
    size: Option<Option<u128>>,
    items: &TypeExpr,
) -> Result<Option<Shape>, AllocError>
    ensures { IfOk result (λ t. option_map shape_view t
        ≡ many_meant size (shape_meant (type_tree items.now))) }
{
    let Some(Some(count)) = size else {
        return Ok(None);
    };
    match shape_meant(alloc, items)? {
        Some(items) => list_sized(alloc, count, items),
        None => Ok(None),
    }
}

/// The list of so many items, if it has as many single values as a list may have.
fn list_sized(alloc: Global, count: u128, items: Shape) -> Result<Option<Shape>, AllocError>
    ensures { IfOk result (λ t. option_map shape_view t ≡ list_sized count (shape_view items)) }
{
    let Some(each) = scalars(&items) else {
        return Ok(None);
    };
    if count < 1 || count > u128::from(MAX_LIST_SCALARS) {
        return Ok(None);
    }
    let count = count as u32;
    if u64::from(count) * u64::from(each) > u64::from(MAX_LIST_SCALARS) {
        return Ok(None);
    }
    Ok(Some(Shape::List(count, Box::new(alloc, items)?)))
}
