//! Intervals of numbers.

ghost use Rattle.std.specs.Prelude.{◌≡◌, ◌≤◌, ◌-ℤ◌, ◌^◌, ℤ, pos};
ghost use Rattle.std.specs.Int.{int_max, int_min};
ghost use Rattle.rvc_base.specs.Arithmetic.{truth};
ghost use Rattle.rvc_base.specs.Width.{max_shift};
ghost use Rattle.cal_model.specs.Certified.{all_numbers, between, fitting, hull, just, range_of_both, range_of_prefix, truths, type_range};
ghost use Rattle.determinacy_cert.specs.Deciding.{AreNumbered, corners_range, numbered};
ghost use Rattle.determinacy_cert.specs.Viewing.{computed, interval_if, interval_view, range_of_corners};

use cal_ast::{BinOp, PrefixOp};
use rvc_base::{MAX_SHIFT, Num, Scalar};

/// The numbers from `low` to `high`.
#[derive(Clone, Copy, Debug)]
pub(crate) struct Interval {
    pub low: Num,
    pub high: Num,
}

/// The numbers from `low` to `high`.
pub(crate) fn between(low: Num, high: Num) -> Interval
    ensures { interval_view result ≡ between low high }
{
    Interval { low, high }
}

/// One number.
pub(crate) fn just(number: Num) -> Interval
    ensures { interval_view result ≡ just number }
{
    between(number, number)
}

/// All numbers of the language.
fn all_numbers() -> Interval
    ensures { interval_view result ≡ all_numbers }
{
    between(Num::MIN, Num::MAX)
}

/// What a truth value is as a number.
fn truths() -> Interval
    ensures { interval_view result ≡ truths }
{
    between(0, 1)
}

/// The least interval that holds both.
pub(crate) fn hull(i: Interval, j: Interval) -> Interval
    ensures { interval_view result ≡ hull (interval_view i) (interval_view j) }
{
    between(lesser(i.low, j.low), greater(i.high, j.high))
}

/// The lesser of two numbers.
fn lesser(a: Num, b: Num) -> Num
    ensures { result ≡ int_min a b }
{
    if b < a { b } else { a }
}

/// The greater of two numbers.
fn greater(a: Num, b: Num) -> Num
    ensures { result ≡ int_max a b }
{
    if b < a { a } else { b }
}

/// The interval of a number as it is written, if it is one of the language.
pub(crate) fn literal(number: u128) -> Option<Interval>
    ensures { interval_if result ≡ fitting (just (pos number)) }
{
    match Num::try_from(number) {
        Ok(number) => Some(just(number)),
        Err(_) => None,
    }
}

/// The interval of a truth value.
pub(crate) fn truth(flag: bool) -> Interval
    ensures { interval_view result ≡ just (truth flag) }
{
    if flag { just(1) } else { just(0) }
}

/// What an operation with one operand gives for numbers of an interval.
pub(crate) fn of_prefix(op: PrefixOp, i: Interval) -> Option<Interval>
    ensures { interval_if result ≡ range_of_prefix op (interval_view i) }
{
    match op {
        PrefixOp::Not => Some(truths()),
        PrefixOp::Neg => negated(i),
        PrefixOp::BitNot => Some(all_numbers()),
    }
}

/// The numbers with the other sign.
fn negated(i: Interval) -> Option<Interval>
    ensures { interval_if result ≡ range_of_prefix PrefixOp.Neg (interval_view i) }
{
    from_ends(i.high.checked_neg(), i.low.checked_neg())
}

/// The interval of two ends, if both are numbers of the language.
fn from_ends(low: Option<Num>, high: Option<Num>) -> Option<Interval>
    ensures { (l h : ℤ) → low ≡ numbered l → high ≡ numbered h
        → interval_if result ≡ fitting (between l h) }
{
    let Some(low) = low else { return None };
    let Some(high) = high else { return None };
    Some(between(low, high))
}

/// What an operation with two operands gives for numbers of two intervals.
pub(crate) fn of_both(op: BinOp, i: Interval, j: Interval) -> Option<Interval>
    ensures { interval_if result
        ≡ range_of_both op (interval_view i) (interval_view j) }
{
    match op {
        BinOp::Add => at_ends(Linear::Sum, i, j),
        BinOp::Sub => at_ends(Linear::Difference, i, j),
        BinOp::Mul => at_ends(Linear::Product, i, j),
        BinOp::Div => quotients(i, j),
        BinOp::Mod => remainders(i, j),
        BinOp::Shr => shifted(i, j),
        BinOp::Shl => None,
        BinOp::BitAnd | BinOp::BitOr | BinOp::BitXor => Some(all_numbers()),
        _ => Some(truths()),
    }
}

/// The operations whose least and greatest results over two intervals are among those at the ends.
#[derive(Clone, Copy)]
enum Linear {
    Sum,
    Difference,
    Product,
}

/// The hull of what the operation gives at the ends.
fn at_ends(op: Linear, i: Interval, j: Interval) -> Option<Interval>
    ensures { interval_if result ≡ range_of_corners op (interval_view i) (interval_view j) }
{
    from_corners(
        computed(op, i.low, j.low),
        computed(op, i.low, j.high),
        computed(op, i.high, j.low),
        computed(op, i.high, j.high),
    )
}

/// What the operation gives, if it is a number of the language.
fn computed(op: Linear, a: Num, b: Num) -> Option<Num>
    ensures { result ≡ numbered (computed op a b) }
{
    match op {
        Linear::Sum => a.checked_add(b),
        Linear::Difference => a.checked_sub(b),
        Linear::Product => a.checked_mul(b),
    }
}

/// The least interval that holds four numbers, if all are numbers of the language.
fn from_corners(a: Option<Num>, b: Option<Num>, c: Option<Num>, d: Option<Num>) -> Option<Interval>
    ensures { (w x y z : ℤ) → AreNumbered a b c d w x y z
        → interval_if result ≡ corners_range w x y z }
{
    let Some(a) = a else { return None };
    let Some(b) = b else { return None };
    let Some(c) = c else { return None };
    let Some(d) = d else { return None };
    Some(hull(hull(just(a), just(b)), hull(just(c), just(d))))
}

/// The quotients by divisors above 0, which lie between the dividend and 0.
fn quotients(i: Interval, j: Interval) -> Option<Interval>
    ensures { interval_if result
        ≡ range_of_both BinOp.Div (interval_view i) (interval_view j) }
{
    if 0 < j.low {
        Some(hull(i, just(0)))
    } else {
        None
    }
}

/// What quotients by divisors above 0 leave.
fn remainders(i: Interval, j: Interval) -> Option<Interval>
    ensures { interval_if result
        ≡ range_of_both BinOp.Mod (interval_view i) (interval_view j) }
{
    if 0 < j.low {
        remainders_by(j.high)
    } else {
        None
    }
}

/// What quotients by divisors up to this one leave.
fn remainders_by(divisor: Num) -> Option<Interval>
    ensures { interval_if result
        ≡ fitting (between (pos 1 -ℤ divisor) (divisor -ℤ pos 1)) }
{
    let least: Num = 1;
    from_ends(least.checked_sub(divisor), divisor.checked_sub(1))
}

/// Numbers shifted down by counts that are allowed, which lie between the number and 0.
fn shifted(i: Interval, j: Interval) -> Option<Interval>
    ensures { interval_if result
        ≡ range_of_both BinOp.Shr (interval_view i) (interval_view j) }
{
    if 0 <= j.low && j.high <= Num::from(MAX_SHIFT) {
        Some(hull(i, just(0)))
    } else {
        None
    }
}

/// The numbers of a type.
pub(crate) fn of_type(t: Scalar) -> Option<Interval>
    ensures { interval_if result ≡ fitting (type_range t) }
{
    match t {
        Scalar::Bool => Some(truths()),
        Scalar::Int(size) => signed(size),
        Scalar::Uint(size) => unsigned(size),
    }
}

/// The signed numbers of this size.
fn signed(size: u8) -> Option<Interval>
    ensures { interval_if result ≡ fitting (type_range (Scalar.Int size)) }
{
    let greatest = greatest_of(if size == 0 { 0 } else { size - 1 })?;
    Some(between(-1 - greatest, greatest))
}

/// The unsigned numbers of this size.
fn unsigned(size: u8) -> Option<Interval>
    ensures { interval_if result ≡ fitting (type_range (Scalar.Uint size)) }
{
    let greatest = greatest_of(size)?;
    Some(between(0, greatest))
}

/// The greatest number of so many bits, if it is a number of the language.
fn greatest_of(bits: u8) -> Option<Num>
    ensures { result ≡ numbered (pos (2 ^ bits) -ℤ pos 1) }
{
    if bits > MAX_SHIFT {
        return None;
    }
    number_of(power(bits) - 1)
}

/// 2 to the power of a count.
fn power(count: u8) -> u128
    requires { count ≤ max_shift }
    ensures { result ≡ 2 ^ count }
{
    1 << count
}

/// A number as it is written, if it is one of the language.
fn number_of(number: u128) -> Option<Num>
    ensures { result ≡ numbered (pos number) }
{
    Num::try_from(number).ok()
}
