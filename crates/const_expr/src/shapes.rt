//! Types by their names and their arguments.

ghost use Rattle.std.specs.Prelude.{◌≡◌, ◌≤◌, ◌&&◌, IfOk, codes, if◌then◌else◌, map, string_bytes};
ghost use Rattle.std.specs.Str.{bytes_eq};
ghost use Rattle.cal_model.specs.Kinding.{Broken, counts, is_word, list_type, list_type_of, truth_type, type_with};
ghost use Rattle.rvc_base.specs.Rules.{wrong_type_argument};
ghost use Rattle.cal_model.specs.Value.{scalars_of_type};
ghost use Rattle.cal_model.specs.View.{shape_view};
ghost use Rattle.const_env.specs.Fitting.{capped};
ghost use Rattle.const_env.specs.Judging.{Judges};
ghost use Rattle.const_expr.specs.Shaping.{argument_view, bits_judged, size_judged};

use crate::filled::Filled;
use cal_ast::Ident;
use cal_model::{MAX_LIST_SCALARS, Shape};
use const_env::KindFault;
use const_env::kinds::{product, wrong_kind};
use rvc_base::{DEFAULT_SIZE, MAX_SIZE, Num, Rule, Scalar};
use std::alloc::Global;

/// An argument of a type, by its name.
#[derive(Drop)]
pub(crate) enum Argument<'a> {
    Shape(&'a Ident, Filled),
    Size(&'a Ident, Num),
}

/// An argument of a type is missing, unknown or outside its range.
fn wrong_argument(at: u32) -> KindFault
    ensures { result ≡ KindFault.Broken wrong_type_argument at }
{
    KindFault::Broken {
        rule: Rule::WRONG_TYPE_ARGUMENT,
        at,
    }
}

/// Whether a name is that of a type.
pub(crate) fn is_word(name: &str) -> bool
    ensures { result ≡ is_word name.now }
{
    name == "bool"
        || name == "int"
        || name == "uint"
        || name == "List"
        || name == "float"
        || name == "half"
        || name == "String"
}

/// The type of a name with these arguments.
pub(crate) fn type_with(
    alloc: Global,
    name: &str,
    given: Vec<Argument<'_>>,
    at: u32,
) -> Result<Shape, KindFault>
    ensures judged { Judges shape_view result
        (type_with name.now (map argument_view given.entry.items) at) }
    ensures filled { IfOk result (λ t. 1 ≤ scalars_of_type (shape_view t)) }
{
    if name == "bool" {
        return truth_type(&given, at);
    }
    if name == "int" {
        let size = size_of(&given, at)?;
        return Ok(Shape::Scalar(Scalar::Int(size)));
    }
    if name == "uint" {
        let size = size_of(&given, at)?;
        return Ok(Shape::Scalar(Scalar::Uint(size)));
    }
    if name == "List" {
        return list_type(alloc, given, at);
    }
    Err(KindFault::Broken {
        rule: Rule::UNSUPPORTED_TYPE,
        at,
    })
}

/// The type of truth values, which has no arguments.
fn truth_type(given: &[Argument<'_>], at: u32) -> Result<Shape, KindFault>
    ensures judged { Judges shape_view result (truth_type (map argument_view given.now) at) }
    ensures filled { IfOk result (λ t. 1 ≤ scalars_of_type (shape_view t)) }
{
    if given.is_empty() {
        return Ok(Shape::Scalar(Scalar::Bool));
    }
    Err(wrong_argument(at))
}

/// The size of a number type, whose one argument may be its size.
fn size_of(given: &[Argument<'_>], at: u32) -> Result<u8, KindFault>
    ensures { Judges (λ n. n) result (size_judged (map argument_view given.now) at) }
{
    let Some((first, others)) = given.split_first() else {
        return Ok(DEFAULT_SIZE);
    };
    if !others.is_empty() {
        return Err(wrong_argument(at));
    }
    match first {
        Argument::Shape(_, _) => Err(wrong_argument(at)),
        Argument::Size(name, size) => {
            if name.text.as_str() == "size" {
                bits(*size, at)
            } else {
                Err(wrong_argument(at))
            }
        }
    }
}

/// A size in bits.
fn bits(size: Num, at: u32) -> Result<u8, KindFault>
    ensures { Judges (λ n. n) result (bits_judged size at) }
{
    if size < 1 || size > Num::from(MAX_SIZE) {
        return Err(wrong_argument(at));
    }
    Ok(size as u8)
}

/// A list type, whose arguments are the type of its items and its size, in either order.
fn list_type(alloc: Global, mut given: Vec<Argument<'_>>, at: u32) -> Result<Shape, KindFault>
    ensures judged { Judges shape_view result (list_type (map argument_view given.entry.items) at) }
    ensures filled { IfOk result (λ t. 1 ≤ scalars_of_type (shape_view t)) }
{
    let Some(second) = given.pop() else {
        return Err(wrong_argument(at));
    };
    let Some(first) = given.pop() else {
        return Err(wrong_argument(at));
    };
    if !given.is_empty() {
        return Err(wrong_argument(at));
    }
    match first {
        Argument::Shape(name, items) => match second {
            Argument::Size(other, size) => list_of(alloc, name, items, other, size, at),
            Argument::Shape(_, _) => Err(wrong_argument(at)),
        },
        Argument::Size(other, size) => match second {
            Argument::Shape(name, items) => list_of(alloc, name, items, other, size, at),
            Argument::Size(_, _) => Err(wrong_argument(at)),
        },
    }
}

/// A list type, by the names of its arguments.
fn list_of(
    alloc: Global,
    name: &Ident,
    items: Filled,
    other: &Ident,
    size: Num,
    at: u32,
) -> Result<Shape, KindFault>
    ensures judged { Judges shape_view result
        (if bytes_eq (string_bytes name.now.text) (codes "type") && bytes_eq
        (string_bytes other.now.text) (codes "size") then list_type_of
        (shape_view items.shape) size at else Broken wrong_type_argument at) }
    ensures filled { IfOk result (λ t. 1 ≤ scalars_of_type (shape_view t)) }
{
    if name.text.as_str() == "type" && other.text.as_str() == "size" {
        return list_of_items(alloc, items, size, at);
    }
    Err(wrong_argument(at))
}

/// The type of lists of so many items.
fn list_of_items(alloc: Global, items: Filled, size: Num, at: u32) -> Result<Shape, KindFault>
    ensures judged { Judges shape_view result (list_type_of (shape_view items.shape) size at) }
    ensures filled { IfOk result (λ t. 1 ≤ scalars_of_type (shape_view t)) }
{
    if size < 1 {
        return Err(wrong_argument(at));
    }
    let too_long = KindFault::Broken {
        rule: Rule::LIST_TOO_LONG,
        at,
    };
    if size > Num::from(MAX_LIST_SCALARS) {
        return Err(too_long);
    }
    let size = size as u32;
    if product(size, scalars_in(&items.shape)) > MAX_LIST_SCALARS {
        return Err(too_long);
    }
    Ok(Shape::List(size, Box::new(alloc, items.shape)?))
}

/// How many scalars the values of a type have, or one more than the limit of a list if they are more.
fn scalars_in(t: &Shape) -> u32
    ensures { result ≡ capped (scalars_of_type (shape_view t.now)) }
{
    match t {
        Shape::Scalar(_) => 1,
        Shape::List(size, items) => product(*size, scalars_in(items)),
    }
}

/// That a type is one of numbers, as that of a generator's variable is.
pub fn counts(t: &Shape, at: u32) -> Result<(), KindFault>
    ensures { Judges (λ _. shape_view t.now) result (counts (shape_view t.now) at) }
{
    match t {
        Shape::Scalar(Scalar::Bool) => Err(wrong_kind(at)),
        Shape::Scalar(Scalar::Int(_)) => Ok(()),
        Shape::Scalar(Scalar::Uint(_)) => Ok(()),
        Shape::List(_, _) => Err(wrong_kind(at)),
    }
}
