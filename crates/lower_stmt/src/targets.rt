//! Cells of names that are assigned.

ghost use Rattle.std.specs.Prelude.{◌≡◌, IfNone, IfSome, Some, option_map};
ghost use Rattle.cal_ast.specs.View.{expr_tree};
ghost use Rattle.cal_model.specs.View.{shape_view};
ghost use Rattle.lower_base.specs.PartView.{part_view, places_of};
ghost use Rattle.lower_base.specs.Seen.{seen};
ghost use Rattle.lower_stmt.specs.Targets.{cell_named, cells_named};
ghost use Rattle.lower_stmt.specs.SeenStmts.{HasNoTarget, IsTarget};
ghost use Rattle.lower_stmt.specs.Targets.{part_in, source_in, source_of, whole_cells_in};

use cal_ast::{Expr, ExprForm};
use cal_model::Shape;
use expr_lower::{alike, leaf_of};
use lower_base::{OneCell, Part, Scope, Seat, list_called, one_named, scalars, whole_called};
use rvc_base::Scalar;

/// The cells of a list, from the first on, and the type of its items.
#[derive(Clone, Copy)]
pub(crate) struct ListCells {
    pub cell: u32,
    pub size: u32,
    pub kind: Scalar,
}

/// The cell of the single value that a text names, if it names one.
pub(crate) fn cell_named(scope: &Scope, text: &str) -> Option<OneCell>
    ensures { result ≡ cell_named (seen scope.now) text.now }
{
    let one = one_named(scope, text)?;
    match one.seat {
        Seat::Cell(cell) => Some(OneCell {
            cell,
            kind: one.kind,
        }),
        Seat::Tokens {
            port: _,
            first: _,
            step: _,
        } => None,
    }
}

/// The cells of the list of single values that a text names, if it names one.
pub(crate) fn cells_named(scope: &Scope, text: &str) -> Option<ListCells>
    ensures { result ≡ cells_named (seen scope.now) text.now }
{
    let list = list_called(scope, text)?;
    match list.seat {
        Seat::Cell(cell) => Some(ListCells {
            cell,
            size: list.size,
            kind: list.kind,
        }),
        Seat::Tokens {
            port: _,
            first: _,
            step: _,
        } => None,
    }
}

/// The cells of a whole list at any depth, if it stands in cells.
pub(crate) fn whole_cells(whole: Part) -> Option<ListCells>
    ensures { result ≡ whole_cells_in (part_view whole.entry) }
{
    let Seat::Cell(cell) = whole.seat else {
        return None;
    };
    Some(ListCells {
        cell,
        size: whole.size,
        kind: leaf_of(whole.shape),
    })
}

/// Where a part of a list in cells is stored: the type of the list, its cells, the type of the part, and how many numbers
/// that has.
#[derive(Clone, Copy)]
pub(crate) struct Target<'a> {
    pub list: &'a Shape,
    pub to: ListCells,
    pub part: &'a Shape,
    pub size: u32,
}

/// Where the part is stored that so many indexes choose in the list that a text names, if they choose one.
pub(crate) fn target_of<'a>(scope: &Scope<'a>, text: &str, places: &[Expr]) -> Option<Target<'a>>
    ensures found { IfSome result
        (λ t. IsTarget (seen scope.now) text.now (places_of places.now) t) }
    ensures none { IfNone result (HasNoTarget (seen scope.now) text.now (places_of places.now)) }
{
    let list = whole_called(scope, text)?;
    let to = whole_cells(list)?;
    let part = part_in(list.shape, places)?;
    let Some(size) = scalars(part) else {
        unreachable!();
    };
    Some(Target {
        list: list.shape,
        to,
        part,
        size,
    })
}

/// The type of the part that so many indexes choose, if there are lists for all of them.
pub(crate) fn part_in<'a>(shape: &'a Shape, places: &[Expr]) -> Option<&'a Shape>
    ensures { option_map (λ t. shape_view t.now) result
        ≡ part_in (shape_view shape.entry.now) (places_of places.now) }
{
    let Some((_, rest)) = places.split_first() else {
        return Some(shape);
    };
    match shape {
        Shape::Scalar(_) => None,
        Shape::List(_, items) => part_in(items, rest),
    }
}

/// The first cell of a list that is assigned to a part of a list, if it is that of a name, in cells, with as many items at
/// each depth.
pub(crate) fn source_of(scope: &Scope, part: &Shape, value: &Expr) -> Option<u32>
    ensures { result ≡ source_of (seen scope.now) (shape_view part.now) (expr_tree value.now) }
{
    let Shape::List(_, _) = part else {
        return None;
    };
    let ExprForm::Name(text) = &value.form else {
        return None;
    };
    let from = whole_called(scope, text.as_str())?;
    source_in(part, from)
}

/// The first cell of a list, if it is in cells and has as many items at each depth as another one.
fn source_in(part: &Shape, from: Part) -> Option<u32>
    ensures { result ≡ source_in (shape_view part.now) (Some (part_view from.entry)) }
{
    if !alike(part, from.shape) {
        return None;
    }
    match from.seat {
        Seat::Cell(cell) => Some(cell),
        Seat::Tokens {
            port: _,
            first: _,
            step: _,
        } => None,
    }
}
