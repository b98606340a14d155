//! Arithmetic on numbers of the language (ISO/IEC 23001-4, RVC-CAL: operators on numbers).

ghost use Rattle.std.specs.Prelude.{◌≡◌, ◌*ℤ◌, IfSome};
ghost use Rattle.rvc_base.specs.Arithmetic.{add, sub, mul, neg, div, rem, shl, shr};
ghost use Rattle.rvc_base.specs.Computing.{computed_of};

use crate::trap::Trap;
use crate::width::{Half, MAX_SHIFT, Num};

/// The number in half the width, if it fits. Most numbers are small, and arithmetic on halves is faster.
#[inline]
fn half(a: Num) -> Option<Half>
    ensures { IfSome result (λ h. h ≡ a) }
{
    Half::try_from(a).ok()
}

/// The product of halves, which is always a number.
#[inline]
fn mul_halves(a: Half, b: Half) -> Num
    ensures { result ≡ a *ℤ b }
{
    Num::from(a) * Num::from(b)
}

/// The product by the whole width.
fn mul_whole(a: Num, b: Num) -> Result<Num, Trap>
    ensures { computed_of result ≡ mul a b }
{
    match a.checked_mul(b) {
        Some(v) => Ok(v),
        None => Err(Trap::Overflow),
    }
}

/// The quotient by the whole width.
fn div_whole(a: Num, b: Num) -> Result<Num, Trap>
    ensures { computed_of result ≡ div a b }
{
    if b == 0 {
        return Err(Trap::DivideByZero);
    }
    match a.checked_div(b) {
        Some(v) => Ok(v),
        None => Err(Trap::Overflow),
    }
}

/// What the quotient leaves, by the whole width.
fn rem_whole(a: Num, b: Num) -> Result<Num, Trap>
    ensures { computed_of result ≡ rem a b }
{
    if b == 0 {
        return Err(Trap::DivideByZero);
    }
    if b == -1 {
        return Ok(0);
    }
    Ok(a % b)
}

/// The sum.
///
/// # Errors
///
/// `Overflow` if the sum is no number of the language.
#[inline]
pub fn add(a: Num, b: Num) -> Result<Num, Trap>
    ensures { computed_of result ≡ add a b }
{
    match a.checked_add(b) {
        Some(v) => Ok(v),
        None => Err(Trap::Overflow),
    }
}

/// The difference.
///
/// # Errors
///
/// `Overflow` if the difference is no number of the language.
#[inline]
pub fn sub(a: Num, b: Num) -> Result<Num, Trap>
    ensures { computed_of result ≡ sub a b }
{
    match a.checked_sub(b) {
        Some(v) => Ok(v),
        None => Err(Trap::Overflow),
    }
}

/// The product.
///
/// # Errors
///
/// `Overflow` if the product is no number of the language.
#[inline]
pub fn mul(a: Num, b: Num) -> Result<Num, Trap>
    ensures { computed_of result ≡ mul a b }
{
    let Some(x) = half(a) else {
        return mul_whole(a, b)
    };
    let Some(y) = half(b) else {
        return mul_whole(a, b)
    };
    Ok(mul_halves(x, y))
}

/// The number with the other sign.
///
/// # Errors
///
/// `Overflow` if that is no number of the language.
#[inline]
pub fn neg(a: Num) -> Result<Num, Trap>
    ensures { computed_of result ≡ neg a }
{
    match a.checked_neg() {
        Some(v) => Ok(v),
        None => Err(Trap::Overflow),
    }
}

/// The quotient rounded towards 0.
///
/// # Errors
///
/// `DivideByZero` if `b` is 0. `Overflow` if the quotient is no number of the language: that of `Num::MIN` by -1 alone.
#[inline]
pub fn div(a: Num, b: Num) -> Result<Num, Trap>
    ensures { computed_of result ≡ div a b }
{
    let Some(x) = half(a) else {
        return div_whole(a, b)
    };
    let Some(y) = half(b) else {
        return div_whole(a, b)
    };
    match x.checked_div(y) {
        Some(v) => Ok(Num::from(v)),
        None => div_whole(a, b),
    }
}

/// What the quotient leaves, with the sign of `a`; 0 if `b` is -1.
///
/// # Errors
///
/// `DivideByZero` if `b` is 0.
#[inline]
pub fn rem(a: Num, b: Num) -> Result<Num, Trap>
    ensures { computed_of result ≡ rem a b }
{
    let Some(x) = half(a) else {
        return rem_whole(a, b)
    };
    let Some(y) = half(b) else {
        return rem_whole(a, b)
    };
    match x.checked_rem(y) {
        Some(v) => Ok(Num::from(v)),
        None => rem_whole(a, b),
    }
}

/// The number times 2 to the power `b`.
///
/// # Errors
///
/// `ShiftRange` if `b` is below 0 or above [`MAX_SHIFT`]. `Overflow` if the product is no number of the language.
#[inline]
pub fn shl(a: Num, b: Num) -> Result<Num, Trap>
    ensures { computed_of result ≡ shl a b }
{
    if b < 0 || b > Num::from(MAX_SHIFT) {
        return Err(Trap::ShiftRange);
    }
    if b < Num::from(MAX_SHIFT) {
        return mul(a, 1 << b);
    }
    match neg(a) {
        Ok(n) => mul(n, Num::MIN),
        Err(trap) => Err(trap),
    }
}

/// The number divided by 2 to the power `b`, rounded towards the lower number.
///
/// # Errors
///
/// `ShiftRange` if `b` is below 0 or above [`MAX_SHIFT`].
#[inline]
pub fn shr(a: Num, b: Num) -> Result<Num, Trap>
    ensures { computed_of result ≡ shr a b }
{
    if b < 0 || b > Num::from(MAX_SHIFT) {
        return Err(Trap::ShiftRange);
    }
    Ok(a >> b)
}
