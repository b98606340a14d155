//! Lists that are filled apart, since an index is put on them.

ghost use Rattle.std.specs.Prelude.{◌≡◌, IfErr, IfOk};
ghost use Rattle.cal_ast.specs.Tree as tree;
ghost use Rattle.cal_ast.specs.View.{expr_tree};
ghost use Rattle.cal_model.specs.Value.{Many};
ghost use Rattle.cal_model.specs.View.{shape_view};
ghost use Rattle.lower_base.specs.declared.fault.LowerFault.TheVariants.{Memory};
ghost use Rattle.lower_base.specs.Growing.{one};
ghost use Rattle.lower_base.specs.ItemsSeen.{few, first_seen, items_at, items_seen};
ghost use Rattle.lower_base.specs.PartView.{places_of};
ghost use Rattle.lower_base.specs.Seen.{seen};
ghost use Rattle.expr_lower.specs.FillWords.{comp_of, list_of};
ghost use Rattle.expr_lower.specs.Indexing.{number_of};

use crate::generators::made_by;
use crate::indexes::Indexes;
use cal_ast::{Expr, ExprForm, Gen};
use cal_model::Shape;
use lower_base::{LowerFault, Scope, whole_called};
use rvc_base::Scalar;
use std::alloc::{AllocError, Global};

/// The type of so many items of a type.
///
/// # Errors
///
/// `Memory` if memory runs out.
pub(crate) fn list_type(alloc: Global, count: u32, items: Shape) -> Result<Shape, LowerFault>
    ensures made { IfOk result (λ t. shape_view t ≡ Many count (shape_view items)) }
    ensures memory { IfErr result (λ fault. fault ≡ Memory) }
{
    Ok(Shape::List(count, Box::new(alloc, items)?))
}

/// The type of so many items of a type that is copied.
///
/// # Errors
///
/// `Memory` if memory runs out.
pub(crate) fn list_like(alloc: Global, count: u32, items: &Shape) -> Result<Shape, LowerFault>
    ensures made { IfOk result (λ t. shape_view t ≡ Many count (shape_view items.now)) }
    ensures memory { IfErr result (λ fault. fault ≡ Memory) }
{
    let items = copy_shape(alloc, items)?;
    list_type(alloc, count, items)
}

/// A type, copied.
fn copy_shape(alloc: Global, t: &Shape) -> Result<Shape, AllocError>
    ensures { IfOk result (λ copy. shape_view copy ≡ shape_view t.now) }
{
    match t {
        Shape::Scalar(kind) => Ok(Shape::Scalar(*kind)),
        Shape::List(size, items) => {
            let items = copy_shape(alloc, items)?;
            Ok(Shape::List(*size, Box::new(alloc, items)?))
        }
    }
}

/// A type of single values. Which one it is doesn't matter where cells are filled.
pub(crate) fn one_type() -> Shape
    ensures { shape_view result ≡ one }
{
    Shape::Scalar(Scalar::Bool)
}

/// How many items the list has that an expression gives, once so many indexes are put on it, if that is seen.
#[cycle(items_seen)]
pub(crate) fn items_seen(scope: &Scope, e: &Expr, depth: &Indexes) -> Option<u32>
    ensures { result ≡ items_seen (seen scope.now) (expr_tree e.now) (number_of depth.now) }
{
    match &e.form {
        ExprForm::Number(_) => None,
        ExprForm::Bool(_) => None,
        ExprForm::Name(text) => items_named(scope, text.as_str(), depth),
        ExprForm::Paren(inner) => items_seen(scope, inner, depth),
        ExprForm::If {
            test: _,
            yes,
            no: _,
        } => items_seen(scope, yes, depth),
        ExprForm::Prefix { op: _, of: _ } => None,
        ExprForm::Binary {
            op: _,
            left: _,
            right: _,
        } => None,
        ExprForm::Call { name: _, args: _ } => None,
        ExprForm::List(items) => items_listed(scope, items, depth),
        ExprForm::Comp { item, gens } => items_made(scope, item, gens, depth),
        ExprForm::Index { base, place: _ } => items_inside(scope, base, &*depth),
    }
}

/// How many items a list has that is named.
fn items_named(scope: &Scope, text: &str, depth: &Indexes) -> Option<u32>
    ensures { result ≡ items_seen (seen scope.now) (tree.variable text.now 0) (number_of depth.now) }
{
    let part = whole_called(scope, text)?;
    items_at(part.shape, depth)
}

/// How many items a type has, once so many indexes are put on it.
fn items_at(shape: &Shape, depth: &Indexes) -> Option<u32>
    ensures { result ≡ items_at (number_of depth.now) (shape_view shape.now) }
{
    match shape {
        Shape::Scalar(_) => None,
        Shape::List(count, items) => match depth {
            Indexes::None => Some(*count),
            Indexes::OneMore(less) => items_at(items, *less),
        },
    }
}

/// How many items a list has that is written out, or its first item.
#[cycle(items_seen)]
fn items_listed(scope: &Scope, items: &[Expr], depth: &Indexes) -> Option<u32>
    ensures { result ≡ items_seen (seen scope.now) (list_of items.now 0) (number_of depth.now) }
{
    match depth {
        Indexes::None => few(items.len()),
        Indexes::OneMore(less) => first_seen(scope, items, *less),
    }
}

/// A count, if 32 bits hold it.
fn few(count: usize) -> Option<u32>
    ensures { result ≡ few count }
{
    match u32::try_from(count) {
        Ok(number) => Some(number),
        Err(_) => None,
    }
}

/// How many items the first of some lists has.
#[cycle(items_seen)]
fn first_seen(scope: &Scope, items: &[Expr], depth: &Indexes) -> Option<u32>
    ensures { result ≡ first_seen (seen scope.now) (places_of items.now) (number_of depth.now) }
{
    let (first, _) = items.split_first()?;
    items_seen(scope, first, depth)
}

/// How many items a list has that generators make, or its elements.
#[cycle(items_seen)]
fn items_made(scope: &Scope, item: &Expr, gens: &[Gen], depth: &Indexes) -> Option<u32>
    ensures { result ≡ items_seen (seen scope.now) (comp_of item.now gens.now 0) (number_of depth.now) }
{
    match depth {
        Indexes::None => made_by(gens),
        Indexes::OneMore(less) => items_seen(scope, item, *less),
    }
}

/// How many items an item of a list has.
#[cycle(items_seen)]
fn items_inside<'d>(scope: &Scope, base: &Expr, depth: &'d Indexes<'d>) -> Option<u32>
    ensures { result ≡ items_seen (seen scope.now)
        (tree.index (expr_tree base.now) tree.nil 0) (number_of depth.entry.now) }
{
    let more = Indexes::OneMore(depth);
    items_seen(scope, base, &more)
}
