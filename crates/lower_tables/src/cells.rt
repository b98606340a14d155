//! The cells of an actor's state.

ghost use Rattle.std.specs.Prelude.{◌≡◌, ◌≤◌, ◌+◌, ◌++◌, [], IfOk, OnOk, map, if◌then◌else◌};
ghost use Rattle.std.specs.List.{range_with_len};
ghost use Rattle.cal_model.specs.Sound.{Each, max_variable_scalars, scalars_of_vars};
ghost use Rattle.cal_model.specs.Value.{IsOf, IsType, scalars_of_type};
ghost use Rattle.cal_model.specs.View.{shape_view, var_view};
ghost use Rattle.lower_tables.specs.Tables.{cells_of_var, saved_from, scalar_of, typed_cell};

use cal_model::{BoundVar, Shape};
use lowered_actor::StateCell;
use rvc_base::Scalar;
use std::alloc::{AllocError, Global};

/// How many cells variables take.
pub(crate) fn cell_count(vars: &[BoundVar]) -> u32
    requires types { Each (λ x. IsType x.shape × IsOf x.shape x.value) (map var_view vars.now) }
    requires few { scalars_of_vars (map var_view vars.now) ≤ max_variable_scalars }
    ensures { result ≡ scalars_of_vars (map var_view vars.now) }
{
    let mut count = 0;
    for x in vars {
        count += scalars(&x.shape);
    }
    count
}

/// The cells of the variables that change, in the order of the source and scalar by scalar.
pub(crate) fn saved_cells(alloc: Global, vars: &[BoundVar]) -> Result<Vec<StateCell>, AllocError>
    requires types { Each (λ x. IsType x.shape × IsOf x.shape x.value) (map var_view vars.now) }
    requires few { scalars_of_vars (map var_view vars.now) ≤ max_variable_scalars }
    ensures { IfOk result (λ saved. saved.items ≡ saved_from 0 (map var_view vars.now)) }
{
    let mut saved = Vec::new(alloc);
    let mut cell = 0;
    for x in vars {
        put_var(&mut saved, x, cell)?;
        cell += scalars(&x.shape);
    }
    Ok(saved)
}

/// Appends the cells of a variable that stands in those from one on, if it changes.
fn put_var(saved: &mut Vec<StateCell>, x: &BoundVar, cell: u32) -> Result<(), AllocError>
    requires known { IsType (shape_view x.now.shape) }
    requires few { cell + scalars_of_type (shape_view x.now.shape) ≤ max_variable_scalars }
    ensures { OnOk result (saved.new.items ≡ saved.old.items
        ++ (if x.now.changes then cells_of_var cell (var_view x.now) else [])) }
{
    if !x.changes {
        return Ok(());
    }
    put_cells(saved, cell, scalars(&x.shape), scalar_of(&x.shape))
}

/// Appends so many cells of scalars of a type, from one on.
fn put_cells(
    saved: &mut Vec<StateCell>,
    cell: u32,
    count: u32,
    kind: Scalar,
) -> Result<(), AllocError>
    requires few { cell + count ≤ max_variable_scalars }
    ensures { OnOk result (saved.new.items ≡ saved.old.items
        ++ map (typed_cell kind) (range_with_len cell count)) }
{
    for k in 0..count {
        saved.push(StateCell {
            cell: cell + k,
            kind,
        })?;
    }
    Ok(())
}

/// How many scalars the values of a type have.
fn scalars(t: &Shape) -> u32
    requires { IsType (shape_view t.now) }
    ensures { result ≡ scalars_of_type (shape_view t.now) }
{
    match t {
        Shape::Scalar(_) => 1,
        Shape::List(size, items) => *size * scalars(items),
    }
}

/// The type of the scalars of a type.
fn scalar_of(t: &Shape) -> Scalar
    ensures { result ≡ scalar_of (shape_view t.now) }
{
    match t {
        Shape::Scalar(kind) => *kind,
        Shape::List(_, items) => scalar_of(items),
    }
}
