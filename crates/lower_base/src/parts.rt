//! Parts of named lists that chains of indexes give.

ghost use Rattle.std.specs.Prelude.{◌≡◌, option_map};
ghost use Rattle.cal_ast.specs.Tree as tree;
ghost use Rattle.cal_ast.specs.View.{expr_tree};
ghost use Rattle.cal_model.specs.View.{shape_view};
ghost use Rattle.lower_base.specs.Names.{name_view, named, names_view};
ghost use Rattle.lower_base.specs.PartView.{part_view};
ghost use Rattle.lower_base.specs.Parted.{deep_named, item_of, part_named, rows_in, rows_named};
ghost use Rattle.lower_base.specs.Parted.{singles_in, sized, whole_in, whole_of};
ghost use Rattle.lower_base.specs.Seen.{seen};

use crate::names::{ItemList, Named, Seat, find};
use crate::scope::{Scope, local_named};
use cal_ast::{Expr, ExprForm};
use cal_model::Shape;
use rvc_base::Scalar;

/// A part of a list: where the whole list stands, how many numbers that has, and the type of the part.
#[derive(Clone, Copy)]
pub struct Part<'a> {
    pub seat: Seat,
    pub size: u32,
    pub shape: &'a Shape,
}

/// How many items a list has, and how many numbers each of them.
#[derive(Clone, Copy)]
pub struct Rows {
    pub count: u32,
    pub each: u32,
}

/// The single values among which an index on a chain of indexes on a name chooses, if it chooses one.
pub fn deep_item_named(scope: &Scope, base: &Expr) -> Option<ItemList>
    ensures { result ≡
        deep_named (seen scope.now) (tree.index (expr_tree base.now) tree.nil 0) }
{
    let part = item_named(scope, base)?;
    singles_in(part)
}

/// How many items the list has that a chain of indexes on a name gives, if it gives one.
pub fn rows_named(scope: &Scope, e: &Expr) -> Option<Rows>
    ensures { result ≡ rows_named (seen scope.now) (expr_tree e.now) }
{
    let part = part_named(scope, e)?;
    rows_in(part.shape)
}

/// The part that a chain of indexes on a name gives, whatever the indexes are.
#[cycle(part_named)]
pub fn part_named<'a>(scope: &Scope<'a>, e: &Expr) -> Option<Part<'a>>
    ensures { option_map part_view result ≡ part_named (seen scope.now) (expr_tree e.now) }
{
    match &e.form {
        ExprForm::Name(text) => whole_called(scope, text.as_str()),
        ExprForm::Index { base, place: _ } => item_named(scope, base),
        _ => None,
    }
}

/// An item of the list that a chain of indexes gives.
#[cycle(part_named)]
fn item_named<'a>(scope: &Scope<'a>, base: &Expr) -> Option<Part<'a>>
    ensures { option_map part_view result ≡
        part_named (seen scope.now) (tree.index (expr_tree base.now) tree.nil 0) }
{
    let part = part_named(scope, base)?;
    item_of(part)
}

/// The list that a text names, if it names one.
pub fn whole_called<'a>(scope: &Scope<'a>, text: &str) -> Option<Part<'a>>
    ensures { option_map part_view result ≡
        part_named (seen scope.now) (tree.variable text.now 0) }
{
    match local_named(text, scope.frame) {
        Some(local) => whole_in(Seat::Cell(local.cell), local.shape),
        None => whole_outside(scope.names, text),
    }
}

/// The list of a name, if it is that of one.
fn whole_outside<'a>(names: &'a [Named], text: &str) -> Option<Part<'a>>
    ensures { option_map part_view result ≡
        part_named (names_view names.now) (tree.variable text.now 0) }
{
    match find(names, text) {
        Some(named) => whole_of(named),
        None => None,
    }
}

/// The list of a name, if it is that of one, and 32 bits hold how many numbers it has.
fn whole_of<'a>(named: &'a Named) -> Option<Part<'a>>
    ensures { option_map part_view result ≡ whole_of (name_view named.now) }
{
    whole_in(named.seat, &named.shape)
}

/// The whole list of a type at a seat, if the type is one of lists, and 32 bits hold how many numbers it has.
fn whole_in<'a>(seat: Seat, shape: &'a Shape) -> Option<Part<'a>>
    ensures { option_map part_view result ≡ whole_in seat (shape_view shape.entry.now) }
{
    match shape {
        Shape::Scalar(_) => None,
        Shape::List(_, _) => {
            let size = scalars(shape)?;
            Some(Part { seat, size, shape })
        }
    }
}

/// An item of a part, if that is a list.
fn item_of<'a>(part: Part<'a>) -> Option<Part<'a>>
    ensures { option_map part_view result ≡ item_of (part_view part.entry) }
{
    match part.shape {
        Shape::Scalar(_) => None,
        Shape::List(_, items) => Some(Part {
            seat: part.seat,
            size: part.size,
            shape: items,
        }),
    }
}

/// The whole list as one of single values, if the part is a single value.
fn singles_in(part: Part) -> Option<ItemList>
    ensures { result ≡ singles_in part.entry.seat part.entry.size (shape_view part.entry.shape.now) }
{
    match part.shape {
        Shape::Scalar(kind) => Some(ItemList {
            seat: part.seat,
            size: part.size,
            kind: *kind,
        }),
        Shape::List(_, _) => None,
    }
}

/// How many items a list has, and how many numbers each of them.
fn rows_in(shape: &Shape) -> Option<Rows>
    ensures { result ≡ rows_in (shape_view shape.now) }
{
    match shape {
        Shape::Scalar(_) => None,
        Shape::List(count, items) => {
            let each = scalars(items)?;
            Some(Rows {
                count: *count,
                each,
            })
        }
    }
}

/// How many numbers a type has, if 32 bits hold this number and that of each part of it.
pub fn scalars(shape: &Shape) -> Option<u32>
    ensures { result ≡ sized (shape_view shape.now) }
{
    match shape {
        Shape::Scalar(_) => Some(1),
        Shape::List(count, items) => {
            let each = scalars(items)?;
            count.checked_mul(each)
        }
    }
}
