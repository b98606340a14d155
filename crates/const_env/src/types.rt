//! Types, as what a number is stored in.

ghost use Rattle.std.specs.Prelude.{◌≡◌, ℕ, IfOk, true};
ghost use Rattle.cal_model.specs.Expression.{nothing_given, size_of_value};
ghost use Rattle.cal_model.specs.Outcome.{needed};
ghost use Rattle.cal_model.specs.View.{value_view};
ghost use Rattle.const_env.specs.Meant.{IsKept, counted, erased, given_view, kept_bits, kept_list, kept_named, number_in};
ghost use Rattle.const_env.specs.Outcome.{Evaluates};

use crate::stop::EvalError;
use crate::value::of_number;
use cal_model::Value;
use rvc_base::{DEFAULT_SIZE, MAX_SIZE, Num, Scalar, conv};

/// The range of a generator, and the type in which its numbers are stored: None for a list.
#[derive(Clone, Copy)]
pub struct Counting {
    pub t: Option<Scalar>,
    /// The first number.
    pub low: Num,
    /// The last number; if it is below the first, there are none.
    pub high: Num,
}

impl Counting {
    /// The numbers from one to another.
    pub fn between(t: Option<Scalar>, low: Num, high: Num) -> Counting
        ensures t { result.t ≡ t }
        ensures low { result.low ≡ low }
        ensures high { result.high ≡ high }
    {
        Counting { t, low, high }
    }
}

/// The arguments that a type is given.
#[derive(Clone, Copy)]
pub struct Given {
    /// Whether it is given the type of its items.
    pub has_items: bool,
    /// Its size, if it is given one that isn't below 0.
    pub size: Option<u128>,
}

impl Given {
    /// No arguments.
    pub fn nothing() -> Given
        ensures { given_view result ≡ erased nothing_given }
    {
        Given {
            has_items: false,
            size: None,
        }
    }

    /// The same with a type of items.
    pub fn with_items(self) -> Given
        ensures has { result.has_items ≡ true }
        ensures size { result.size ≡ self.size }
    {
        Given {
            has_items: true,
            size: self.size,
        }
    }

    /// The same with a size, which is a number that isn't below 0.
    pub fn with_size(self, value: &Value) -> Given
        ensures has { result.has_items ≡ self.has_items }
        ensures size { result.size ≡ size_of_value (value_view value.now) }
    {
        Given {
            has_items: self.has_items,
            size: size_of(value),
        }
    }
}

/// A number that isn't below 0.
fn size_of(value: &Value) -> Option<u128>
    ensures { result ≡ size_of_value (value_view value.now) }
{
    match value {
        Value::Num(number) => {
            if *number < 0 {
                None
            } else {
                Some(*number as u128)
            }
        }
        Value::Bool(_) => None,
        Value::List(_) => None,
    }
}

/// The number that a value is, if it is one.
pub fn number(value: &Value) -> Option<Num>
    ensures { result ≡ number_in (value_view value.now) }
{
    match value {
        Value::Num(number) => Some(*number),
        Value::Bool(_) => None,
        Value::List(_) => None,
    }
}

/// A number as it is stored in a type: as it is, if the type is a list.
pub fn counted(t: Option<Scalar>, number: Num) -> Value
    requires { IsKept t }
    ensures { value_view result ≡ counted t number }
{
    match t {
        None => Value::Num(number),
        Some(t) => of_number(t, conv(t, number)),
    }
}

/// The type of a name with these arguments: None for a list.
///
/// # Errors
///
/// `Clashes` if no type has the name, or not with these arguments.
pub fn type_named(name: &str, given: Given) -> Result<Option<Scalar>, EvalError>
    ensures named { (left : ℕ) → Evaluates
        (λ kept. kept) result left (needed (kept_named name.now (given_view given)) left) }
    ensures sized { IfOk result IsKept }
{
    if name == "bool" {
        return Ok(Some(Scalar::Bool));
    }
    if name == "int" {
        return signed(given.size);
    }
    if name == "uint" {
        return unsigned(given.size);
    }
    if name == "List" {
        return list(given);
    }
    Err(EvalError::Clashes)
}

/// A signed type, whose size is the greatest if none is given.
fn signed(size: Option<u128>) -> Result<Option<Scalar>, EvalError>
    ensures kept { (left : ℕ) → Evaluates
        (λ kept. kept) result left (needed (kept_bits size (λ n. Scalar.Int n)) left) }
    ensures sized { IfOk result IsKept }
{
    let Some(size) = size else {
        return Ok(Some(Scalar::Int(DEFAULT_SIZE)));
    };
    if size < 1 || size > u128::from(MAX_SIZE) {
        return Err(EvalError::Clashes);
    }
    Ok(Some(Scalar::Int(size as u8)))
}

/// An unsigned type, whose size is the greatest if none is given.
fn unsigned(size: Option<u128>) -> Result<Option<Scalar>, EvalError>
    ensures kept { (left : ℕ) → Evaluates
        (λ kept. kept) result left (needed (kept_bits size (λ n. Scalar.Uint n)) left) }
    ensures sized { IfOk result IsKept }
{
    let Some(size) = size else {
        return Ok(Some(Scalar::Uint(DEFAULT_SIZE)));
    };
    if size < 1 || size > u128::from(MAX_SIZE) {
        return Err(EvalError::Clashes);
    }
    Ok(Some(Scalar::Uint(size as u8)))
}

/// A list type, which is given the type of its items and its size.
fn list(given: Given) -> Result<Option<Scalar>, EvalError>
    ensures kept { (left : ℕ) → Evaluates
        (λ kept. kept) result left (needed (kept_list (given_view given)) left) }
    ensures sized { IfOk result IsKept }
{
    if given.has_items && given.size.is_some() {
        return Ok(None);
    }
    Err(EvalError::Clashes)
}
