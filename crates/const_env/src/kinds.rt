//! Kinds side by side, and the kinds that operations give.

ghost use Rattle.std.specs.Prelude.{◌≡◌, ◌*◌, IfOk, true};
ghost use Rattle.cal_model.specs.Kinding.{binary_kind, branch_kind, is_like, is_same_kind, item_kind, kind_over_numbers, kind_over_truths, list_of_kind, one_kind, prefix_kind};
ghost use Rattle.rvc_base.specs.Rules.{wrong_kind};
ghost use Rattle.cal_model.specs.Value.{BoolKind, kind_of_scalar, scalars_of_kind};
ghost use Rattle.cal_model.specs.View.{kind_view, value_view, values_view};
ghost use Rattle.const_env.specs.Constants.{kind_of_value};
ghost use Rattle.const_env.specs.Lengths.{is_counted};
ghost use Rattle.const_env.specs.Fitting.{both_fit, capped, fit_of};
ghost use Rattle.const_env.specs.Judging.{Judges};
ghost use Rattle.cal_model.specs.Value.{Items};

use crate::fault::KindFault;
use cal_ast::{BinOp, PrefixOp};
use cal_model::{Kind, MAX_LIST_SCALARS, Value, Values};
use rvc_base::{Memory, Rule, Scalar};
use std::alloc::Global;

/// The fault that kinds don't match, at an offset.
pub fn wrong_kind(at: u32) -> KindFault
    ensures { result ≡ KindFault.Broken wrong_kind at }
{
    KindFault::Broken {
        rule: Rule::WRONG_KIND,
        at,
    }
}

// ---- kinds of values and types

/// The kind of a value. An empty list is taken as one of numbers.
#[cycle(value)]
pub(crate) fn kind_of_value(alloc: Global, value: &Value) -> Result<Kind, Memory>
    requires { is_counted (value_view value.now) ≡ true }
    ensures { IfOk result (λ kind. kind_view kind ≡ kind_of_value (value_view value.now)) }
{
    match value {
        Value::Num(_) => Ok(Kind::Num),
        Value::Bool(_) => Ok(Kind::Bool),
        Value::List(values) => kind_of_values(alloc, values),
    }
}

/// The kind of the list of values.
#[cycle(value)]
fn kind_of_values(alloc: Global, values: &Values) -> Result<Kind, Memory>
    requires { is_counted (Items (values_view values.now)) ≡ true }
    ensures { IfOk result (λ kind. kind_view kind
        ≡ kind_of_value (Items (values_view values.now))) }
{
    let Some(first) = values.items.first() else {
        return Ok(Kind::List(0, Box::new(alloc, Kind::Num)?));
    };
    let items = kind_of_value(alloc, first)?;
    Ok(Kind::List(values.items.len() as u32, Box::new(alloc, items)?))
}

/// An equal kind.
pub(crate) fn copy_kind(alloc: Global, kind: &Kind) -> Result<Kind, Memory>
    ensures { IfOk result (λ copied. kind_view copied ≡ kind_view kind.now) }
{
    match kind {
        Kind::Num => Ok(Kind::Num),
        Kind::Bool => Ok(Kind::Bool),
        Kind::List(size, items) => {
            let items = copy_kind(alloc, items)?;
            Ok(Kind::List(*size, Box::new(alloc, items)?))
        }
    }
}

/// The kind of the values of a single type.
pub fn kind_of_scalar(t: Scalar) -> Kind
    ensures { kind_view result ≡ kind_of_scalar t }
{
    match t {
        Scalar::Bool => Kind::Bool,
        Scalar::Int(_) => Kind::Num,
        Scalar::Uint(_) => Kind::Num,
    }
}

// ---- kinds side by side

/// Whether both are the same.
fn is_same(k: &Kind, l: &Kind) -> bool
    ensures { result ≡ is_same_kind (kind_view k.now) (kind_view l.now) }
{
    match k {
        Kind::Num => matches!(l, Kind::Num),
        Kind::Bool => matches!(l, Kind::Bool),
        Kind::List(n, items) => match l {
            Kind::List(m, others) => *n == *m && is_same(items, others),
            Kind::Num => false,
            Kind::Bool => false,
        },
    }
}

/// Whether both are the same but for the lengths of lists.
fn is_like(k: &Kind, l: &Kind) -> bool
    ensures { result ≡ is_like (kind_view k.now) (kind_view l.now) }
{
    match k {
        Kind::Num => matches!(l, Kind::Num),
        Kind::Bool => matches!(l, Kind::Bool),
        Kind::List(_, items) => match l {
            Kind::List(_, others) => is_like(items, others),
            Kind::Num => false,
            Kind::Bool => false,
        },
    }
}

/// That both are one kind.
pub fn one_kind(k: &Kind, l: &Kind, at: u32) -> Result<(), KindFault>
    ensures { Judges (λ _. kind_view k.now) result
        (one_kind (kind_view k.now) (kind_view l.now) at) }
{
    if is_same(k, l) {
        return Ok(());
    }
    if is_like(k, l) {
        return Err(KindFault::Broken {
            rule: Rule::WRONG_LENGTH,
            at,
        });
    }
    Err(wrong_kind(at))
}

/// Whether kinds are like another one, and whether they are the same.
#[derive(Clone, Copy)]
pub struct Fit {
    /// The same but for the lengths of lists.
    pub like: bool,
    pub same: bool,
}

impl Fit {
    ghost use Rattle.std.specs.Prelude.{◌∷◌, []};

    /// No kinds.
    pub fn of_none() -> Fit
        ensures like { result.like ≡ true }
        ensures same { result.same ≡ true }
    {
        Fit {
            like: true,
            same: true,
        }
    }

    /// The same with one kind more.
    pub fn with(self, k: &Kind, l: &Kind) -> Fit
        ensures { result ≡ both_fit self (fit_of (kind_view k.now) (kind_view l.now ∷ [])) }
    {
        Fit {
            like: self.like && is_like(k, l),
            same: self.same && is_same(k, l),
        }
    }
}

// ---- lists

/// The product of two counts, or one more than the limit of a list if it is more.
pub fn product(a: u32, b: u32) -> u32
    ensures { result ≡ capped (a * b) }
{
    let whole = u64::from(a) * u64::from(b);
    if whole > u64::from(MAX_LIST_SCALARS) {
        return MAX_LIST_SCALARS + 1;
    }
    whole as u32
}

/// How many scalars the values of a kind have, or one more than the limit of a list if they are more.
fn scalars(k: &Kind) -> u32
    ensures { result ≡ capped (scalars_of_kind (kind_view k.now)) }
{
    match k {
        Kind::Num => 1,
        Kind::Bool => 1,
        Kind::List(size, items) => product(*size, scalars(items)),
    }
}

/// The kind of lists of so many items of a kind.
///
/// # Errors
///
/// `Broken` if their scalars are more than a list may have; `Memory` if memory runs out.
pub fn list_of_kind(alloc: Global, size: usize, k: Kind, at: u32) -> Result<Kind, KindFault>
    ensures { Judges kind_view result (list_of_kind size (kind_view k) at) }
{
    let too_long = KindFault::Broken {
        rule: Rule::LIST_TOO_LONG,
        at,
    };
    if size > MAX_LIST_SCALARS as usize {
        return Err(too_long);
    }
    let size = size as u32;
    if product(size, scalars(&k)) > MAX_LIST_SCALARS {
        return Err(too_long);
    }
    Ok(Kind::List(size, Box::new(alloc, k)?))
}

// ---- operations

/// The kind that an operation with one operand gives.
///
/// # Errors
///
/// `Broken` if the operand is of another kind than the operation asks.
pub fn prefix_kind(op: PrefixOp, k: &Kind, at: u32) -> Result<Kind, KindFault>
    ensures { Judges kind_view result (prefix_kind op (kind_view k.now) at) }
{
    match op {
        PrefixOp::Not => match k {
            Kind::Bool => Ok(Kind::Bool),
            Kind::Num => Err(wrong_kind(at)),
            Kind::List(_, _) => Err(wrong_kind(at)),
        },
        PrefixOp::Neg => number_kind(k, at),
        PrefixOp::BitNot => number_kind(k, at),
    }
}

/// The kind of numbers, which is asked of an operand.
fn number_kind(k: &Kind, at: u32) -> Result<Kind, KindFault>
    ensures { Judges kind_view result (prefix_kind PrefixOp.Neg (kind_view k.now) at) }
{
    match k {
        Kind::Num => Ok(Kind::Num),
        Kind::Bool => Err(wrong_kind(at)),
        Kind::List(_, _) => Err(wrong_kind(at)),
    }
}

/// The kind that an operation with two operands gives.
///
/// # Errors
///
/// `Broken` if the operands aren't of the kinds that the operation asks.
pub fn binary_kind(op: BinOp, k: &Kind, l: &Kind, at: u32) -> Result<Kind, KindFault>
    ensures { Judges kind_view result (binary_kind op (kind_view k.now) (kind_view l.now) at) }
{
    match k {
        Kind::Num => match l {
            Kind::Num => over_numbers(op, at),
            Kind::Bool => Err(wrong_kind(at)),
            Kind::List(_, _) => Err(wrong_kind(at)),
        },
        Kind::Bool => match l {
            Kind::Bool => over_truths(op, at),
            Kind::Num => Err(wrong_kind(at)),
            Kind::List(_, _) => Err(wrong_kind(at)),
        },
        Kind::List(_, _) => Err(wrong_kind(at)),
    }
}

/// The kind that an operation on two numbers gives.
fn over_numbers(op: BinOp, at: u32) -> Result<Kind, KindFault>
    ensures { Judges kind_view result (kind_over_numbers op at) }
{
    match op {
        BinOp::And => Err(wrong_kind(at)),
        BinOp::Or => Err(wrong_kind(at)),
        BinOp::Eq => Ok(Kind::Bool),
        BinOp::Ne => Ok(Kind::Bool),
        BinOp::Lt => Ok(Kind::Bool),
        BinOp::Le => Ok(Kind::Bool),
        BinOp::Gt => Ok(Kind::Bool),
        BinOp::Ge => Ok(Kind::Bool),
        BinOp::BitOr => Ok(Kind::Num),
        BinOp::BitXor => Ok(Kind::Num),
        BinOp::BitAnd => Ok(Kind::Num),
        BinOp::Shl => Ok(Kind::Num),
        BinOp::Shr => Ok(Kind::Num),
        BinOp::Add => Ok(Kind::Num),
        BinOp::Sub => Ok(Kind::Num),
        BinOp::Mul => Ok(Kind::Num),
        BinOp::Div => Ok(Kind::Num),
        BinOp::Mod => Ok(Kind::Num),
    }
}

/// The kind that an operation on two truth values gives.
fn over_truths(op: BinOp, at: u32) -> Result<Kind, KindFault>
    ensures { Judges kind_view result (kind_over_truths op at) }
{
    match op {
        BinOp::And => Ok(Kind::Bool),
        BinOp::Or => Ok(Kind::Bool),
        BinOp::Eq => Ok(Kind::Bool),
        BinOp::Ne => Ok(Kind::Bool),
        BinOp::Lt => Err(wrong_kind(at)),
        BinOp::Le => Err(wrong_kind(at)),
        BinOp::Gt => Err(wrong_kind(at)),
        BinOp::Ge => Err(wrong_kind(at)),
        BinOp::BitOr => Err(wrong_kind(at)),
        BinOp::BitXor => Err(wrong_kind(at)),
        BinOp::BitAnd => Err(wrong_kind(at)),
        BinOp::Shl => Err(wrong_kind(at)),
        BinOp::Shr => Err(wrong_kind(at)),
        BinOp::Add => Err(wrong_kind(at)),
        BinOp::Sub => Err(wrong_kind(at)),
        BinOp::Mul => Err(wrong_kind(at)),
        BinOp::Div => Err(wrong_kind(at)),
        BinOp::Mod => Err(wrong_kind(at)),
    }
}

/// The kind of an item of a list.
pub fn item_kind(base: Kind, place: &Kind, at: u32) -> Result<Kind, KindFault>
    ensures { Judges kind_view result (item_kind (kind_view base) (kind_view place.now) at) }
{
    match base {
        Kind::List(_, items) => match place {
            Kind::Num => Ok(Box::into_inner(items)),
            Kind::Bool => Err(wrong_kind(at)),
            Kind::List(_, _) => Err(wrong_kind(at)),
        },
        Kind::Num => Err(wrong_kind(at)),
        Kind::Bool => Err(wrong_kind(at)),
    }
}

/// The kind of a choice between two branches, by a condition's kind.
///
/// # Errors
///
/// `Broken` if the condition is no truth value, or the branches aren't of one kind.
pub fn branch_kind(test: &Kind, yes: Kind, no: &Kind, at: u32) -> Result<Kind, KindFault>
    ensures { Judges kind_view result
        (branch_kind (kind_view test.now) (kind_view yes) (kind_view no.now) at) }
{
    match test {
        Kind::Bool => {
            one_kind(&yes, no, at)?;
            Ok(yes)
        }
        Kind::Num => Err(wrong_kind(at)),
        Kind::List(_, _) => Err(wrong_kind(at)),
    }
}
