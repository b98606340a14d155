//! What the state cells of an actor hold at first.

ghost use Rattle.std.specs.Prelude.{◌≡◌, ◌++◌, IfOk, OnOk, length};
ghost use Rattle.cal_model.specs.Selection.{start_of};
ghost use Rattle.cal_model.specs.Sound.{IsSound};
ghost use Rattle.cal_model.specs.View.{actor_of, value_view, values_view};
ghost use Rattle.lower_base.specs.Flat.{flat, flat_all};
ghost use Rattle.action_lower.specs.Seats.{HoldVars, numbers_of_vars, state_cells};

use cal_model::{Bound, Value, Values};
use rvc_base::{Memory, Num};
use std::alloc::{AllocError, Global};

/// What the state cells of an actor hold at first: the values of its variables, one after the other and scalar by
/// scalar; a truth value is 0 or 1.
///
/// # Errors
///
/// `Memory` if memory runs out.
pub fn first_cells(alloc: Global, b: &Bound) -> Result<Vec<Num>, Memory>
    requires sound { IsSound (actor_of b.now) }
    ensures numbers { IfOk result
        (λ cells. cells.items ≡ numbers_of_vars (start_of (actor_of b.now)).vars) }
    ensures size { IfOk result (λ cells. length cells.items ≡ state_cells (actor_of b.now)) }
    ensures hold { IfOk result
        (λ cells. HoldVars (actor_of b.now) (start_of (actor_of b.now)) cells.items) }
{
    let mut cells = Vec::new(alloc);
    for x in &b.vars {
        put_value(&x.value, &mut cells)?;
    }
    Ok(cells)
}

/// Appends the numbers of a value.
#[cycle(put_value)]
fn put_value(value: &Value, cells: &mut Vec<Num>) -> Result<(), AllocError>
    ensures { OnOk result (cells.new.items ≡ cells.old.items ++ flat (value_view value.now)) }
{
    match value {
        Value::Num(number) => {
            cells.push(*number)?;
            Ok(())
        }
        Value::Bool(truth) => {
            cells.push(if *truth { 1 } else { 0 })?;
            Ok(())
        }
        Value::List(values) => put_values(values, cells),
    }
}

/// Appends the numbers of values, one after the other.
#[cycle(put_value)]
fn put_values(values: &Values, cells: &mut Vec<Num>) -> Result<(), AllocError>
    ensures { OnOk result (cells.new.items ≡ cells.old.items ++ flat_all (values_view values.now)) }
{
    for value in &values.items {
        put_value(value, cells)?;
    }
    Ok(())
}
