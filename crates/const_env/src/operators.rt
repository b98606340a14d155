//! Operators on values.

ghost use Rattle.std.specs.Prelude.{◌≡◌, ℕ, map, pos};
ghost use Rattle.rvc_base.specs.Arithmetic.{whole};
ghost use Rattle.cal_model.specs.Env.{item_at};
ghost use Rattle.cal_model.specs.Expression.{applied, computed, indexed, of_numbers, of_truths, prefixed};
ghost use Rattle.cal_model.specs.Value.{Items};
ghost use Rattle.cal_model.specs.View.{in_order, value_view, values_view};
ghost use Rattle.rvc_base.specs.Computing.{computed_of};
ghost use Rattle.const_env.specs.Deciding.{decides};
ghost use Rattle.const_env.specs.Outcome.{Evaluates};

use crate::stop::EvalError;
use crate::value::copy;
use cal_ast::{BinOp, PrefixOp};
use cal_model::{Value, Values};
use rvc_base::arithmetic::{add, div, mul, neg, rem, shl, shr, sub};
use rvc_base::{Num, Trap};
use std::alloc::Global;

/// A number as it is written.
///
/// # Errors
///
/// `Trap` if it is greater than numbers are.
pub fn literal(number: u128) -> Result<Value, EvalError>
    ensures { (left : ℕ) → Evaluates value_view result left (computed (whole (pos number)) left) }
{
    match Num::try_from(number) {
        Ok(number) => Ok(Value::Num(number)),
        Err(_) => Err(EvalError::Trap(Trap::Overflow)),
    }
}

/// A number that was computed, or its trap.
fn computed(found: Result<Num, Trap>) -> Result<Value, EvalError>
    ensures { (left : ℕ) → Evaluates value_view result left (computed (computed_of found) left) }
{
    match found {
        Ok(number) => Ok(Value::Num(number)),
        Err(trap) => Err(EvalError::Trap(trap)),
    }
}

/// What an operation with one operand gives.
///
/// # Errors
///
/// `Trap` if it traps; `Clashes` if the operand is of another kind than it asks.
pub fn prefixed(op: PrefixOp, value: &Value) -> Result<Value, EvalError>
    ensures { (left : ℕ) → Evaluates value_view result left
        (prefixed op (value_view value.now) left) }
{
    match op {
        PrefixOp::Not => denied(value),
        PrefixOp::Neg => negated(value),
        PrefixOp::BitNot => inverted(value),
    }
}

/// The other truth value.
fn denied(value: &Value) -> Result<Value, EvalError>
    ensures { (left : ℕ) → Evaluates value_view result left
        (prefixed PrefixOp.Not (value_view value.now) left) }
{
    match value {
        Value::Bool(truth) => Ok(Value::Bool(!*truth)),
        Value::Num(_) => Err(EvalError::Clashes),
        Value::List(_) => Err(EvalError::Clashes),
    }
}

/// The number with the other sign.
fn negated(value: &Value) -> Result<Value, EvalError>
    ensures { (left : ℕ) → Evaluates value_view result left
        (prefixed PrefixOp.Neg (value_view value.now) left) }
{
    match value {
        Value::Num(number) => computed(neg(*number)),
        Value::Bool(_) => Err(EvalError::Clashes),
        Value::List(_) => Err(EvalError::Clashes),
    }
}

/// The number with the other bits.
fn inverted(value: &Value) -> Result<Value, EvalError>
    ensures { (left : ℕ) → Evaluates value_view result left
        (prefixed PrefixOp.BitNot (value_view value.now) left) }
{
    match value {
        Value::Num(number) => Ok(Value::Num(!*number)),
        Value::Bool(_) => Err(EvalError::Clashes),
        Value::List(_) => Err(EvalError::Clashes),
    }
}

/// Whether the left side of an operation decides it, so that the right one isn't evaluated.
pub fn decides(op: BinOp, value: &Value) -> bool
    ensures { result ≡ decides op (value_view value.now) }
{
    match value {
        Value::Bool(true) => op == BinOp::Or,
        Value::Bool(false) => op == BinOp::And,
        Value::Num(_) => false,
        Value::List(_) => false,
    }
}

/// What an operation with two operands gives.
///
/// # Errors
///
/// `Trap` if it traps; `Clashes` if an operand is of another kind than it asks.
pub fn applied(op: BinOp, first: &Value, second: &Value) -> Result<Value, EvalError>
    ensures { (left : ℕ) → Evaluates value_view result left
        (applied op (value_view first.now) (value_view second.now) left) }
{
    match first {
        Value::Num(a) => with_number(op, *a, second),
        Value::Bool(a) => with_truth(op, *a, second),
        Value::List(_) => Err(EvalError::Clashes),
    }
}

/// An operation whose first operand is a number.
fn with_number(op: BinOp, a: Num, second: &Value) -> Result<Value, EvalError>
    ensures { (left : ℕ) → Evaluates value_view result left
        (applied op (value_view (Value.Num a)) (value_view second.now) left) }
{
    match second {
        Value::Num(b) => of_numbers(op, a, *b),
        Value::Bool(_) => Err(EvalError::Clashes),
        Value::List(_) => Err(EvalError::Clashes),
    }
}

/// An operation whose first operand is a truth value.
fn with_truth(op: BinOp, a: bool, second: &Value) -> Result<Value, EvalError>
    ensures { (left : ℕ) → Evaluates value_view result left
        (applied op (value_view (Value.Bool a)) (value_view second.now) left) }
{
    match second {
        Value::Bool(b) => of_truths(op, a, *b),
        Value::Num(_) => Err(EvalError::Clashes),
        Value::List(_) => Err(EvalError::Clashes),
    }
}

/// An operation on two numbers.
fn of_numbers(op: BinOp, a: Num, b: Num) -> Result<Value, EvalError>
    ensures { (left : ℕ) → Evaluates value_view result left (of_numbers op a b left) }
{
    match op {
        BinOp::Add => computed(add(a, b)),
        BinOp::Sub => computed(sub(a, b)),
        BinOp::Mul => computed(mul(a, b)),
        BinOp::Div => computed(div(a, b)),
        BinOp::Mod => computed(rem(a, b)),
        BinOp::Shl => computed(shl(a, b)),
        BinOp::Shr => computed(shr(a, b)),
        BinOp::BitAnd => Ok(Value::Num(a & b)),
        BinOp::BitOr => Ok(Value::Num(a | b)),
        BinOp::BitXor => Ok(Value::Num(a ^ b)),
        BinOp::Eq => Ok(Value::Bool(a == b)),
        BinOp::Ne => Ok(Value::Bool(a != b)),
        BinOp::Lt => Ok(Value::Bool(a < b)),
        BinOp::Le => Ok(Value::Bool(a <= b)),
        BinOp::Gt => Ok(Value::Bool(a > b)),
        BinOp::Ge => Ok(Value::Bool(a >= b)),
        BinOp::And => Err(EvalError::Clashes),
        BinOp::Or => Err(EvalError::Clashes),
    }
}

/// An operation on two truth values, of which the left one doesn't decide.
fn of_truths(op: BinOp, a: bool, b: bool) -> Result<Value, EvalError>
    ensures { (left : ℕ) → Evaluates value_view result left (of_truths op a b left) }
{
    match op {
        BinOp::And => Ok(Value::Bool(a && b)),
        BinOp::Or => Ok(Value::Bool(a || b)),
        BinOp::Eq => Ok(Value::Bool(a == b)),
        BinOp::Ne => Ok(Value::Bool(a != b)),
        BinOp::Lt => Err(EvalError::Clashes),
        BinOp::Le => Err(EvalError::Clashes),
        BinOp::Gt => Err(EvalError::Clashes),
        BinOp::Ge => Err(EvalError::Clashes),
        BinOp::BitAnd => Err(EvalError::Clashes),
        BinOp::BitOr => Err(EvalError::Clashes),
        BinOp::BitXor => Err(EvalError::Clashes),
        BinOp::Add => Err(EvalError::Clashes),
        BinOp::Sub => Err(EvalError::Clashes),
        BinOp::Mul => Err(EvalError::Clashes),
        BinOp::Div => Err(EvalError::Clashes),
        BinOp::Mod => Err(EvalError::Clashes),
        BinOp::Shl => Err(EvalError::Clashes),
        BinOp::Shr => Err(EvalError::Clashes),
    }
}

/// The item of a list at a place, as a value of its own.
///
/// # Errors
///
/// `Trap` if the list has no such place; `Clashes` if the base is no list, or the place no number. `Memory` if memory
/// runs out.
pub fn indexed(alloc: Global, base: &Value, place: &Value) -> Result<Value, EvalError>
    ensures { (left : ℕ) → Evaluates value_view result left
        (indexed (value_view base.now) (value_view place.now) left) }
{
    match base {
        Value::List(values) => item(alloc, values, place),
        Value::Num(_) => Err(EvalError::Clashes),
        Value::Bool(_) => Err(EvalError::Clashes),
    }
}

/// The item of a list at a place, which must be a number.
fn item(alloc: Global, values: &Values, place: &Value) -> Result<Value, EvalError>
    ensures { (left : ℕ) → Evaluates value_view result left
        (indexed (Items (values_view values.now)) (value_view place.now) left) }
{
    match place {
        Value::Num(number) => item_at(alloc, &values.items, *number),
        Value::Bool(_) => Err(EvalError::Clashes),
        Value::List(_) => Err(EvalError::Clashes),
    }
}

/// The item of a list at a number, which must be a place of the list.
fn item_at(alloc: Global, items: &[Value], number: Num) -> Result<Value, EvalError>
    ensures { (left : ℕ) → Evaluates value_view result left
        (item_at (in_order (map value_view items.now)) number left) }
{
    if number < 0 {
        return Err(EvalError::Trap(Trap::IndexRange));
    }
    if number >= items.len() as Num {
        return Err(EvalError::Trap(Trap::IndexRange));
    }
    Ok(copy(alloc, &items[number as usize])?)
}
