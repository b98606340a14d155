//! The names that an action sees, and where their values stand.

ghost use Rattle.std.specs.Prelude.{◌≡◌, ℕ, ◌≤◌, ◌<◌, ◌++◌, [], IfOk, OnOk, length, map, slice_index_or};
ghost use Rattle.cal_model.specs.Selection.{kind_of_port};
ghost use Rattle.cal_model.specs.Rates.{taken_on};
ghost use Rattle.cal_model.specs.Sound.{Each, IsAction, IsSound, max_rate, max_variable_scalars, scalars_of_vars};
ghost use Rattle.cal_model.specs.Value.{IsOf, IsType};
ghost use Rattle.cal_model.specs.View.{action_view, actor_of, pattern_view, port_view, var_view};
ghost use Rattle.lower_base.specs.Names.{name_view, names_view};
ghost use Rattle.action_lower.specs.FiringCode.{globals_of};
ghost use Rattle.action_lower.specs.Seats.{pattern_seat, pattern_seats, pattern_seats_from, seen_seats, var_seat, var_seats};

use crate::shapes::{copy_shape, pattern_shape, scalars};
use cal_model::{Bound, BoundAction, BoundPattern, BoundVar, Port};
use lower_base::{Named, Seat};
use rvc_base::Scalar;
use std::alloc::{AllocError, Global};

/// The variables of an actor as names: they stand in the state cells, one after the other.
///
/// # Errors
///
/// If memory runs out.
pub fn global_names(alloc: Global, b: &Bound) -> Result<Vec<Named>, AllocError>
    requires sound { IsSound (actor_of b.now) }
    ensures { IfOk result (λ names. names_view names.items ≡ globals_of (actor_of b.now)) }
{
    let mut names = Vec::new(alloc);
    put_vars(alloc, &b.vars, &mut names)?;
    Ok(names)
}

/// The names that the guards of an action see, with the cells and tokens where their values stand.
pub(crate) fn seen_names(
    alloc: Global,
    b: &Bound,
    act: &BoundAction,
) -> Result<Vec<Named>, AllocError>
    requires sound { IsSound (actor_of b.now) }
    requires action { IsAction (actor_of b.now) (action_view act.now) }
    requires few { (port : ℕ) → taken_on port (action_view act.now).patterns ≤ max_rate }
    ensures { IfOk result (λ names. names_view names.items
        ≡ seen_seats (actor_of b.now) (action_view act.now)) }
{
    let mut names = Vec::new(alloc);
    put_patterns(alloc, &b.ins, &act.patterns, &mut names)?;
    put_vars(alloc, &b.vars, &mut names)?;
    Ok(names)
}

/// Appends the names of patterns, those of later ones first.
fn put_patterns(
    alloc: Global,
    ports: &[Port],
    patterns: &[BoundPattern],
    names: &mut Vec<Named>,
) -> Result<(), AllocError>
    requires few { Each (λ q. length q.names ≤ max_rate) (map pattern_view patterns.now) }
    ensures { OnOk result (names_view names.new.items ≡ names_view names.old.items
        ++ pattern_seats (map port_view ports.now) (map pattern_view patterns.now)) }
{
    match patterns.split_first() {
        Some((first, rest)) => {
            put_patterns(alloc, ports, rest, names)?;
            put_pattern(alloc, kind_on(ports, first.port), first, names)
        }
        None => Ok(()),
    }
}

/// The type of the tokens of a port.
pub(crate) fn kind_on(ports: &[Port], port: u32) -> Scalar
    ensures { result ≡ kind_of_port (map port_view ports.now) port }
{
    match ports.get(port as usize) {
        Some(port) => port.kind,
        None => Scalar::Bool,
    }
}

/// Appends the names of a pattern, the last one first.
fn put_pattern(
    alloc: Global,
    kind: Scalar,
    pattern: &BoundPattern,
    names: &mut Vec<Named>,
) -> Result<(), AllocError>
    requires few { length (pattern_view pattern.now).names ≤ max_rate }
    ensures { OnOk result (names_view names.new.items ≡ names_view names.old.items
        ++ pattern_seats_from kind (pattern_view pattern.now) 0 (pattern_view pattern.now).names) }
{
    let step = pattern.names.len() as u32;
    let mut place = step;
    'places: while place > 0 {
        place -= 1;
        let named = pattern_named(alloc, kind, pattern, place, step)?;
        names.push(named)?;
    }
    Ok(())
}

/// The name at a place of a pattern of `step` names.
fn pattern_named(
    alloc: Global,
    kind: Scalar,
    pattern: &BoundPattern,
    place: u32,
    step: u32,
) -> Result<Named, AllocError>
    requires place { place < length pattern.now.names.items }
    requires step { step ≡ length (pattern_view pattern.now).names }
    ensures { IfOk result (λ named. name_view named ≡ pattern_seat kind (pattern_view pattern.now)
        place (slice_index_or (pattern_view pattern.now).names place [])) }
{
    Ok(Named {
        name: pattern.names[place as usize].clone()?,
        shape: pattern_shape(alloc, kind, pattern.repeat)?,
        seat: Seat::Tokens {
            port: pattern.port,
            first: place,
            step,
        },
    })
}

/// Appends the names of variables, which stand one after the other.
fn put_vars(alloc: Global, vars: &[BoundVar], names: &mut Vec<Named>) -> Result<(), AllocError>
    requires types { Each (λ x. IsType x.shape × IsOf x.shape x.value) (map var_view vars.now) }
    requires few { scalars_of_vars (map var_view vars.now) ≤ max_variable_scalars }
    ensures { OnOk result (names_view names.new.items ≡ names_view names.old.items
        ++ var_seats 0 (map var_view vars.now)) }
{
    let mut cell = 0;
    for x in vars {
        names.push(var_named(alloc, x, cell)?)?;
        cell += scalars(&x.shape);
    }
    Ok(())
}

/// The name of a variable that stands in the cells from one on.
fn var_named(alloc: Global, x: &BoundVar, cell: u32) -> Result<Named, AllocError>
    ensures { IfOk result (λ named. name_view named ≡ var_seat cell (var_view x.now)) }
{
    Ok(Named {
        name: x.name.clone()?,
        shape: copy_shape(alloc, &x.shape)?,
        seat: Seat::Cell(cell),
    })
}
