//! The start of a local, which may be a list.

ghost use Rattle.std.specs.Prelude.{◌≡◌, ◌+◌, ◌≤◌, ◌^◌, IfErr, IfOk, None, OnOk, Some};
ghost use Rattle.cal_ast.specs.View.{expr_tree, optional_expr};
ghost use Rattle.cal_model.specs.View.{local_view, shape_view};
ghost use Rattle.lower_base.specs.declared.fault.LowerFault.TheVariants.{TooManyCells};
ghost use Rattle.lower_base.specs.Growing.{IsFault};
ghost use Rattle.lower_base.specs.Listed.{single_of};
ghost use Rattle.lower_base.specs.Parted.{sized};
ghost use Rattle.lower_base.specs.Seen.{called, seen};
ghost use Rattle.lower_base.specs.SeenWords.{AddsStart, left_out_first};
ghost use Rattle.lower_base.specs.Starting.{left_out_list_local, left_out_list_start, left_out_local};
ghost use Rattle.expr_lower.specs.FillWords.{IsAllLaid, IsWhyNotLaid};
ghost use Rattle.expr_lower.specs.ListStarting.{leaf_of};
ghost use Rattle.expr_lower.specs.StartWords.{AddsListStart, AddsLocal, AddsStartAt, HasTakenList};

use crate::exprs::lower;
use crate::lists::fill;
use crate::taking::take_row;
use cal_ast::Expr;
use cal_model::{BoundLocal, Shape};
use code_ir::Instr;
use lower_base::{Draft, LowerFault, Scope, put, put_all, scalars, single, take_cell, type_size};
use rvc_base::Scalar;

/// The cells of a list: the first of them, and how many there are.
#[derive(Clone, Copy)]
pub struct Row {
    pub first: u32,
    pub size: u32,
}

/// Takes cells for a local, one for each of its numbers, and appends its start there: what is written, stored in its
/// type, or 0 and false. The first cell comes back.
///
/// The start sees what `scope` sees, not the local itself. What stood in the draft stays.
///
/// # Errors
///
/// `NotLowered` if the start has a part for which no code is made, with the offset of the first one, or with the offset
/// 0 if the local is a list of a type whose sizes aren't allowed. `TooLong` if the draft has 2 to the power of 32
/// instructions. `TooManyCells` if the numbers of the cells that are used don't fit. `Memory` if memory runs out.
pub fn start_local(scope: &Scope, x: &BoundLocal, draft: &mut Draft) -> Result<u32, LowerFault>
    ensures cell { IfOk result (λ cell. cell ≡ draft.old.cells) }
    ensures ok { OnOk result (AddsLocal scope.now (local_view x.now) draft.old draft.new) }
    ensures whole { OnOk result
        (left_out_local (called scope.now) (seen scope.now) (local_view x.now) ≡ None) }
    ensures fault { IfErr result (IsFault
        (left_out_local (called scope.now) (seen scope.now) (local_view x.now)) draft.new) }
{
    match single(&x.shape) {
        Some(kind) => start_one(scope, x, kind, draft),
        None => start_sized(scope, x, draft),
    }
}

/// Starts a local of single values in a cell more.
fn start_one(
    scope: &Scope,
    x: &BoundLocal,
    kind: Scalar,
    draft: &mut Draft,
) -> Result<u32, LowerFault>
    requires one { single_of (shape_view x.now.shape) ≡ Some kind }
    ensures cell { IfOk result (λ cell. cell ≡ draft.old.cells) }
    ensures ok { OnOk result (AddsLocal scope.now (local_view x.now) draft.old draft.new) }
    ensures whole { OnOk result
        (left_out_local (called scope.now) (seen scope.now) (local_view x.now) ≡ None) }
    ensures fault { IfErr result (IsFault
        (left_out_local (called scope.now) (seen scope.now) (local_view x.now)) draft.new) }
{
    let cell = take_cell(draft)?;
    start(scope, &x.start, cell, kind, draft)?;
    Ok(cell)
}

/// Starts a local that is a list, if the sizes of its type are allowed.
fn start_sized(scope: &Scope, x: &BoundLocal, draft: &mut Draft) -> Result<u32, LowerFault>
    requires not_one { single_of (shape_view x.now.shape) ≡ None }
    ensures cell { IfOk result (λ cell. cell ≡ draft.old.cells) }
    ensures ok { OnOk result (AddsLocal scope.now (local_view x.now) draft.old draft.new) }
    ensures whole { OnOk result
        (left_out_list_local (called scope.now) (seen scope.now) (local_view x.now) ≡ None) }
    ensures fault { IfErr result (IsFault
        (left_out_list_local (called scope.now) (seen scope.now) (local_view x.now)) draft.new) }
{
    let Some(_) = type_size(&x.shape) else {
        return Err(LowerFault::NotLowered { at: 0 });
    };
    start_list(scope, &x.shape, &x.start, draft)
}

/// Takes cells for a local that is a list, and appends its start there: zeros and false if none is written, and else the
/// list, each number of which is then stored in its type. The first cell comes back.
///
/// The start sees what `scope` sees, not the local itself. What stood in the draft stays.
///
/// # Errors
///
/// `NotLowered` if the start has a part for which no code is made, with the offset of the first one, as
/// [`lower_list`](lower_base::lower_list) says. `TooLong` if the draft has 2 to the power of 32 instructions.
/// `TooManyCells` if the numbers of the cells that are used don't fit; then all are taken. `Memory` if memory runs out.
pub fn start_list(
    scope: &Scope,
    shape: &Shape,
    value: &Option<Expr>,
    draft: &mut Draft,
) -> Result<u32, LowerFault>
    ensures cell { IfOk result (λ cell. cell ≡ draft.old.cells) }
    ensures ok { IfOk result
        (λ cell. AddsListStart scope.now (shape_view shape.now) value.now draft.old draft.new) }
    ensures whole { IfOk result (λ cell. left_out_list_start (called scope.now) (seen scope.now)
        (shape_view shape.now) (optional_expr value.now) ≡ None) }
    ensures fault { IfErr result (IsFault (left_out_list_start (called scope.now) (seen scope.now)
        (shape_view shape.now) (optional_expr value.now)) draft.new) }
{
    let row = take_list(shape, draft)?;
    put_start(scope, shape, value, row, draft)?;
    Ok(row.first)
}

/// Takes as many cells as a list has numbers.
///
/// # Errors
///
/// `TooManyCells` if there aren't so many left; then all are taken.
pub fn take_list(shape: &Shape, draft: &mut Draft) -> Result<Row, LowerFault>
    ensures taken { IfOk result (HasTakenList (shape_view shape.now) draft.old draft.new) }
    ensures fault { IfErr result
        (λ fault. (fault ≡ TooManyCells) × (2 ^ 32 ≤ draft.new.cells + 3)) }
{
    let Some(size) = scalars(shape) else {
        draft.cells = u32::MAX;
        return Err(LowerFault::TooManyCells);
    };
    let first = take_row(size, draft)?;
    Ok(Row { first, size })
}

/// Appends the start of a list in its cells.
fn put_start(
    scope: &Scope,
    shape: &Shape,
    value: &Option<Expr>,
    row: Row,
    draft: &mut Draft,
) -> Result<(), LowerFault>
    requires size { sized (shape_view shape.now) ≡ Some row.size }
    requires cells { row.first + row.size ≤ draft.old.cells }
    ensures ok { OnOk result
        (AddsStartAt scope.now (shape_view shape.now) row.first value.now draft.old draft.new) }
    ensures whole { OnOk result (left_out_list_start (called scope.now) (seen scope.now)
        (shape_view shape.now) (optional_expr value.now) ≡ None) }
    ensures fault { IfErr result (IsFault (left_out_list_start (called scope.now) (seen scope.now)
        (shape_view shape.now) (optional_expr value.now)) draft.new) }
{
    match value {
        Some(e) => put_given(scope, shape, e, row, draft),
        None => put(draft, Instr::Zero(row.first, row.size)),
    }
}

/// Appends a list that is given in its cells, and the instruction that stores each of its numbers in its type.
fn put_given(
    scope: &Scope,
    shape: &Shape,
    e: &Expr,
    row: Row,
    draft: &mut Draft,
) -> Result<(), LowerFault>
    requires size { sized (shape_view shape.now) ≡ Some row.size }
    requires cells { row.first + row.size ≤ draft.old.cells }
    ensures ok { OnOk result
        (AddsStartAt scope.now (shape_view shape.now) row.first (Some e.now) draft.old draft.new) }
    ensures whole { OnOk result (IsAllLaid scope.now (shape_view shape.now) (expr_tree e.now)) }
    ensures fault { IfErr result
        (IsWhyNotLaid scope.now (shape_view shape.now) (expr_tree e.now) draft.new) }
{
    fill(scope, e, shape, row.first, draft)?;
    let kind = leaf_of(shape);
    put(
        draft,
        Instr::Copy(row.first, row.first, row.size, Some(kind)),
    )
}

/// The type of the single values of a list at any depth.
pub fn leaf_of(shape: &Shape) -> Scalar
    ensures { result ≡ leaf_of (shape_view shape.now) }
{
    match shape {
        Shape::Scalar(kind) => *kind,
        Shape::List(_, items) => leaf_of(items),
    }
}

// ---- single values

/// Appends the start of a local in its cell, which is zero or false if none is written.
pub fn start(
    scope: &Scope,
    value: &Option<Expr>,
    cell: u32,
    kind: Scalar,
    draft: &mut Draft,
) -> Result<(), LowerFault>
    ensures ok { OnOk result (AddsStart scope.now kind cell value.now draft.old draft.new) }
    ensures whole { OnOk result (left_out_first scope.now value.now ≡ None) }
    ensures fault { IfErr result (IsFault (left_out_first scope.now value.now) draft.new) }
{
    match value {
        Some(e) => given(scope, e, cell, kind, draft),
        None => put_all(draft, &[Instr::Const(0), Instr::Store(cell, None)]),
    }
}

/// Appends a value, and the instruction that stores it in a cell of a local.
fn given(
    scope: &Scope,
    e: &Expr,
    cell: u32,
    kind: Scalar,
    draft: &mut Draft,
) -> Result<(), LowerFault>
    ensures ok { OnOk result (AddsStart scope.now kind cell (Some e.now) draft.old draft.new) }
    ensures whole { OnOk result (left_out_first scope.now (Some e.now) ≡ None) }
    ensures fault { IfErr result (IsFault (left_out_first scope.now (Some e.now)) draft.new) }
{
    lower(scope, e, draft)?;
    put(draft, Instr::Store(cell, Some(kind)))
}
