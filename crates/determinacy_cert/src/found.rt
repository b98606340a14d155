//! The names that a guard may use, and the numbers that they stand for.

ghost use Rattle.std.specs.Prelude.{◌≡◌, None, Some, if◌then◌else◌, map, option_map, string_bytes};
ghost use Rattle.cal_model.specs.Certified.{all_scalars_range, item_ranged, range_of_name, ranged, ranged_vars, scalars_range};
ghost use Rattle.cal_model.specs.Selection.{kind_of_port};
ghost use Rattle.cal_model.specs.Value.{Single};
ghost use Rattle.cal_model.specs.View.{pattern_view, port_view, shape_view, value_view, values_view, var_view};
ghost use Rattle.determinacy_cert.specs.Deciding.{joined, last_place, named_in};
ghost use Rattle.determinacy_cert.specs.Viewing.{found_if, found_view, interval_if, interval_view, listed_as, named_view, names_view, ranged_as, token_shape, typed_view, unnamed, value_if};

use crate::interval::{Interval, hull, just, of_type, truth};
use cal_model::{Bound, BoundAction, BoundPattern, BoundVar, Port, Shape, Value, Values};
use rvc_base::{Num, Scalar};

/// What is known of a name, or of what stands in it.
#[derive(Clone, Copy)]
pub(crate) struct Found<'a> {
    pub of: Typed<'a>,
    /// The value of the constant that has the name.
    pub value: Option<&'a Value>,
}

/// A type.
#[derive(Clone, Copy)]
pub(crate) enum Typed<'a> {
    /// That of a token, or of a list of so many.
    Tokens(Scalar, Option<u32>),
    Declared(&'a Shape),
}

/// A name that stands in a pattern.
#[derive(Clone, Copy)]
pub(crate) struct Named<'a> {
    pub pattern: &'a BoundPattern,
    /// Its place among the names of the pattern.
    pub place: usize,
}

/// The names that the guards of an action see: its pattern variables, and the variables and constants of the actor.
#[derive(Clone, Copy)]
pub(crate) struct Names<'a> {
    pub actor: &'a Bound,
    pub action: &'a BoundAction,
}

/// What is known of a name: inner names hide outer ones, and later ones earlier ones.
pub(crate) fn find<'a>(name: &str, names: Names<'a>) -> Option<Found<'a>>
    ensures { found_if result
        ≡ option_map unnamed (ranged name.now (names_view names.entry)) }
{
    match named_in(name, &names.action.patterns) {
        Some(named) => Some(token(&names.actor.ins, named)),
        None => variable(name, &names.actor.vars),
    }
}

/// What is known of a pattern variable.
fn token<'a>(ins: &[Port], named: Named<'a>) -> Found<'a>
    ensures of { typed_view result.of
        ≡ token_shape ins.now named.entry }
    ensures value { result.value ≡ None }
{
    Found {
        of: Typed::Tokens(kind_of_port(ins, named.pattern.port), named.pattern.repeat),
        value: None,
    }
}

/// The type of a port, and that of truth values if there is no such port.
fn kind_of_port(ins: &[Port], port: u32) -> Scalar
    ensures { result ≡ kind_of_port (map port_view ins.now) port }
{
    match ins.get(port as usize) {
        Some(found) => found.kind,
        None => Scalar::Bool,
    }
}

/// What is known of a variable or a constant of the actor.
fn variable<'a>(name: &str, vars: &'a [BoundVar]) -> Option<Found<'a>>
    ensures { found_if result
        ≡ option_map unnamed (ranged name.now (ranged_vars (map var_view vars.now))) }
{
    let mut rest = vars;
    'names: while let Some((first, others)) = rest.split_first() {
        if first.name.as_str() == name {
            return Some(declared(first));
        }
        rest = others;
    }
    None
}

/// What is known of this variable or constant.
fn declared<'a>(var: &'a BoundVar) -> Found<'a>
    ensures of { typed_view result.of ≡ shape_view var.now.shape }
    ensures value { value_if result.value
        ≡ (if var.now.changes then None else Some (value_view var.now.value)) }
{
    Found {
        of: Typed::Declared(&var.shape),
        value: if var.changes { None } else { Some(&var.value) },
    }
}

/// The pattern in which a name stands last, and its place there.
pub(crate) fn named_in<'a>(name: &str, patterns: &'a [BoundPattern]) -> Option<Named<'a>>
    ensures { option_map named_view result ≡ named_in name.now (map pattern_view patterns.now) }
{
    let mut index = patterns.len();
    'backwards: while index > 0 {
        index -= 1;
        let pattern = &patterns[index];
        if let Some(place) = last_place(name, &pattern.names) {
            return Some(Named { pattern, place });
        }
    }
    None
}

/// The place at which a name stands last.
fn last_place(name: &str, names: &[String]) -> Option<usize>
    ensures { result ≡ last_place name.now (map string_bytes names.now) }
{
    let mut place = names.len();
    'backwards: while place > 0 {
        place -= 1;
        if names[place].as_str() == name {
            return Some(place);
        }
    }
    None
}

/// The numbers of a single value of this type, or of the constant in which it stands. None for a list.
pub(crate) fn numbers_of(x: Found<'_>) -> Option<Interval>
    ensures { interval_if result ≡ range_of_name (found_view x.entry) }
{
    match x.of {
        Typed::Tokens(t, None) => numbers_of_single(t, x.value),
        Typed::Tokens(_, Some(_)) => None,
        Typed::Declared(shape) => match shape {
            Shape::Scalar(t) => numbers_of_single(*t, x.value),
            Shape::List(_, _) => None,
        },
    }
}

/// The numbers of a single type, or of the constant that is known.
fn numbers_of_single(t: Scalar, value: Option<&Value>) -> Option<Interval>
    ensures { interval_if result
        ≡ range_of_name (ranged_as (Single t) (value_if value.entry)) }
{
    match value {
        None => of_type(t),
        Some(value) => scalars(value),
    }
}

/// What stands in a list at places within this interval.
pub(crate) fn item<'a>(x: Found<'a>, i: Interval) -> Option<Found<'a>>
    ensures { found_if result ≡ item_ranged (interval_view i) (found_view x.entry) }
{
    match x.of {
        Typed::Tokens(_, None) => None,
        Typed::Tokens(t, Some(size)) => within(i, size, Typed::Tokens(t, None), x.value),
        Typed::Declared(shape) => match shape {
            Shape::Scalar(_) => None,
            Shape::List(size, items) => within(i, *size, Typed::Declared(items), x.value),
        },
    }
}

/// What stands in a list of so many items at places within this interval.
fn within<'a>(
    i: Interval,
    size: u32,
    items: Typed<'a>,
    value: Option<&'a Value>,
) -> Option<Found<'a>>
    ensures { found_if result
        ≡ item_ranged (interval_view i) (listed_as size items.entry value.entry) }
{
    if 0 <= i.low && i.high < Num::from(size) {
        Some(Found { of: items, value })
    } else {
        None
    }
}

/// From the least to the greatest scalar of a value, if it has any.
#[cycle(scalars)]
fn scalars(value: &Value) -> Option<Interval>
    ensures { interval_if result ≡ scalars_range (value_view value.now) }
{
    match value {
        Value::Num(number) => Some(just(*number)),
        Value::Bool(flag) => Some(truth(*flag)),
        Value::List(values) => all_scalars(values),
    }
}

/// From the least to the greatest scalar of all values of a list, if they have any.
#[cycle(scalars)]
fn all_scalars(values: &Values) -> Option<Interval>
    ensures { interval_if result ≡ all_scalars_range (values_view values.now) }
{
    let mut found: Option<Interval> = None;
    for value in &values.items {
        found = either(found, scalars(value));
    }
    found
}

/// The hull of both, or the one that there is.
fn either(i: Option<Interval>, j: Option<Interval>) -> Option<Interval>
    ensures { interval_if result
        ≡ joined (interval_if i) (interval_if j) }
{
    match i {
        None => j,
        Some(i) => match j {
            None => Some(i),
            Some(j) => Some(hull(i, j)),
        },
    }
}
