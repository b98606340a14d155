//! Names with the cells or tokens that hold their values.

ghost use Rattle.std.specs.Prelude.{◌≡◌, option_map};
ghost use Rattle.cal_ast.specs.Tree as tree;
ghost use Rattle.cal_ast.specs.View.{expr_tree};
ghost use Rattle.cal_model.specs.View.{shape_view};
ghost use Rattle.lower_base.specs.Listed.{items_in, items_of, list_named, single_of};
ghost use Rattle.lower_base.specs.Names.{name_view, named, names_view, shape_named};
ghost use Rattle.lower_base.specs.Seen.{one_in, one_named, one_of, seen};

use crate::scope::{Scope, local_named};
use cal_ast::{Expr, ExprForm};
use cal_model::Shape;
use rvc_base::Scalar;

/// A name, the type of its value, and where the value stands, number by number.
#[derive(Drop)]
pub struct Named {
    pub name: String,
    pub shape: Shape,
    pub seat: Seat,
}

/// Where the numbers of a value stand.
#[derive(Clone, Copy, Debug, PartialEq, Eq)]
pub enum Seat {
    /// In the cells from this one on.
    Cell(u32),
    /// In the tokens of a port: the number at place k of the value is token `first + k * step`.
    Tokens { port: u32, first: u32, step: u32 },
}

/// Where the items of a list stand, and of which type they are.
#[derive(Clone, Copy)]
pub struct ItemList {
    pub seat: Seat,
    pub size: u32,
    pub kind: Scalar,
}

/// Where a single value stands, and its type.
#[derive(Clone, Copy)]
pub struct OneSeat {
    pub seat: Seat,
    pub kind: Scalar,
}

/// The cell of a single value, and its type.
#[derive(Clone, Copy)]
pub struct OneCell {
    pub cell: u32,
    pub kind: Scalar,
}

/// The single value that a text names, if it names one.
pub fn one_named(scope: &Scope, text: &str) -> Option<OneSeat>
    ensures { result ≡ one_named (seen scope.now) text.now }
{
    match local_named(text, scope.frame) {
        Some(local) => one_in(Seat::Cell(local.cell), local.shape),
        None => one_outside(scope.names, text),
    }
}

/// The single value of a name, if it is that of one.
fn one_outside(names: &[Named], text: &str) -> Option<OneSeat>
    ensures { result ≡ one_named (names_view names.now) text.now }
{
    match find(names, text) {
        Some(named) => one_of(named),
        None => None,
    }
}

/// Where the single value of a name stands, if it is that of one.
fn one_of(named: &Named) -> Option<OneSeat>
    ensures { result ≡ one_of (name_view named.now) }
{
    one_in(named.seat, &named.shape)
}

/// The single value of a type at a seat, if the type is one of single values.
fn one_in(seat: Seat, shape: &Shape) -> Option<OneSeat>
    ensures { result ≡ one_in seat (shape_view shape.now) }
{
    let kind = single(shape)?;
    Some(OneSeat { seat, kind })
}

/// The list of single values that an expression names, if it names one.
pub fn list_named(scope: &Scope, e: &Expr) -> Option<ItemList>
    ensures { result ≡ list_named (seen scope.now) (expr_tree e.now) }
{
    match &e.form {
        ExprForm::Name(text) => list_called(scope, text.as_str()),
        _ => None,
    }
}

/// The list of single values that a text names, if it names one.
pub fn list_called(scope: &Scope, text: &str) -> Option<ItemList>
    ensures { result ≡ list_named (seen scope.now) (tree.variable text.now 0) }
{
    match local_named(text, scope.frame) {
        Some(local) => items_in(Seat::Cell(local.cell), local.shape),
        None => list_outside(scope.names, text),
    }
}

/// The list of single values of a name, if it is that of one.
fn list_outside(names: &[Named], text: &str) -> Option<ItemList>
    ensures { result ≡ list_named (names_view names.now) (tree.variable text.now 0) }
{
    match find(names, text) {
        Some(named) => items_of(named),
        None => None,
    }
}

/// Where the items of a list stand, if it is one of single values.
fn items_of(named: &Named) -> Option<ItemList>
    ensures { result ≡ items_of (name_view named.now) }
{
    items_in(named.seat, &named.shape)
}

/// The items of a list at a seat, if its type is one of lists of single values.
fn items_in(seat: Seat, shape: &Shape) -> Option<ItemList>
    ensures { result ≡ items_in seat (shape_view shape.now) }
{
    match shape {
        Shape::Scalar(_) => None,
        Shape::List(size, items) => {
            let kind = single(items)?;
            Some(ItemList {
                seat,
                size: *size,
                kind,
            })
        }
    }
}

/// The type of the name that a text means, if it means one.
pub fn shape_called<'a>(scope: &Scope<'a>, text: &str) -> Option<&'a Shape>
    ensures { option_map (λ t. shape_view t.now) result ≡ shape_named (seen scope.now) text.now }
{
    match local_named(text, scope.frame) {
        Some(local) => Some(local.shape),
        None => shape_outside(scope.names, text),
    }
}

/// The type of the name that a text means, if it means one of these.
fn shape_outside<'a>(names: &'a [Named], text: &str) -> Option<&'a Shape>
    ensures { option_map (λ t. shape_view t.now) result
        ≡ shape_named (names_view names.now) text.now }
{
    match find(names, text) {
        Some(named) => Some(&named.shape),
        None => None,
    }
}

/// The type of single values that a type is, if it is one.
pub fn single(shape: &Shape) -> Option<Scalar>
    ensures { result ≡ single_of (shape_view shape.now) }
{
    match shape {
        Shape::Scalar(t) => Some(*t),
        Shape::List(_, _) => None,
    }
}

/// The first of the names that is this text.
pub(crate) fn find<'a>(names: &'a [Named], text: &str) -> Option<&'a Named>
    ensures { option_map (λ x. name_view x.now) result ≡ named text.now (names_view names.now) }
{
    let mut rest = names;
    'names: while let Some((first, others)) = rest.split_first() {
        if first.name.as_str() == text {
            return Some(first);
        }
        rest = others;
    }
    None
}
