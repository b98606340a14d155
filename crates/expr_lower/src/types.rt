//! Types of single values as they are written.

ghost use Rattle.std.specs.Prelude.{◌≡◌, map};
ghost use Rattle.std.specs.Prelude.{None, Some};
ghost use Rattle.cal_ast.specs.Tree.{listed};
ghost use Rattle.cal_ast.specs.View.{expr_tree, type_arg_tree, type_tree};
ghost use Rattle.cal_model.specs.Expression.{bits, type_named};
ghost use Rattle.cal_model.specs.Value.{Single};
ghost use Rattle.lower_base.specs.Meant.{literal_size, only_size, single_in, single_meant};
ghost use Rattle.lower_base.specs.Meant.{size_of, size_of_arg, size_written};
ghost use Rattle.rvc_base.specs.declared.scalar.Scalar.TheVariants as scalar;

use crate::bounds::bound_of;
use cal_ast::{Expr, TypeArg, TypeExpr};
use rvc_base::{DEFAULT_SIZE, MAX_SIZE, Num, Scalar};

/// The type of single values that a type means whatever names mean, if it is seen to mean one.
pub fn single_meant(shape: &TypeExpr) -> Option<Scalar>
    ensures { result ≡ single_meant (type_tree shape.now) }
{
    let size = size_written(&shape.args)?;
    scalar_named(shape.name.text.as_str(), size)
}

/// The size that is written: none, or a number.
fn size_written(args: &[TypeArg]) -> Option<Option<u128>>
    ensures { result ≡ size_written (listed (map type_arg_tree args.now)) }
{
    match args {
        [] => Some(None),
        [arg] => size_of_arg(arg),
        _ => None,
    }
}

/// The size that an argument gives.
pub(crate) fn size_of_arg(arg: &TypeArg) -> Option<Option<u128>>
    ensures { result ≡ size_of_arg (type_arg_tree arg.now) }
{
    match arg {
        TypeArg::Shape { name: _, shape: _ } => None,
        TypeArg::Value { name: _, value } => literal_size(value),
    }
}

/// The size that is written by literals and `-` alone.
pub(crate) fn literal_size(e: &Expr) -> Option<Option<u128>>
    ensures { result ≡ literal_size (expr_tree e.now) }
{
    size_of(bound_of(e))
}

/// The size that a number is, if it isn't below 0.
fn size_of(number: Option<Num>) -> Option<Option<u128>>
    ensures { result ≡ size_of number }
{
    match u128::try_from(number?) {
        Ok(size) => Some(Some(size)),
        Err(_) => None,
    }
}

/// The type of single values of a name with this size.
fn scalar_named(name: &str, size: Option<u128>) -> Option<Scalar>
    ensures { result ≡ single_in (type_named name.now (only_size size)) }
{
    if name == "bool" {
        return Some(Scalar::Bool);
    }
    if name == "int" {
        return signed(size);
    }
    if name == "uint" {
        return unsigned(size);
    }
    None
}

/// A signed type.
fn signed(size: Option<u128>) -> Option<Scalar>
    ensures { result ≡ single_in (bits size (λ n. Single (scalar.Int n))) }
{
    let Some(size) = size else {
        return Some(Scalar::Int(DEFAULT_SIZE));
    };
    if size < 1 || size > u128::from(MAX_SIZE) {
        return None;
    }
    Some(Scalar::Int(size as u8))
}

/// An unsigned type.
fn unsigned(size: Option<u128>) -> Option<Scalar>
    ensures { result ≡ single_in (bits size (λ n. Single (scalar.Uint n))) }
{
    let Some(size) = size else {
        return Some(Scalar::Uint(DEFAULT_SIZE));
    };
    if size < 1 || size > u128::from(MAX_SIZE) {
        return None;
    }
    Some(Scalar::Uint(size as u8))
}
