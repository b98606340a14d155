//! The instructions that pop two numbers, or one, and push what an operation gives.

ghost use Rattle.std.specs.Prelude.{◌≤◌, length};
ghost use Rattle.code_ir.specs.declared.instr.Instr.TheVariants as op;
ghost use Rattle.action_machine.specs.Stacks.{operands};
ghost use Rattle.action_machine.specs.Acting.{Computes};

use crate::stack::{Acted, pop, push_result};
use crate::{bits, truth};
use rvc_base::{Num, arithmetic};

#[inline]
pub(crate) fn add(top: &mut usize, stack: &mut [Num]) -> Acted
    requires enough { 2 ≤ top.old }
    requires inside { top.old ≤ length stack.old }
    ensures { Computes op.Add (operands top.old stack.old) result (operands top.new stack.new) }
{
    let b = pop(top, stack);
    let a = pop(top, stack);
    push_result(top, stack, arithmetic::add(a, b))
}

#[inline]
pub(crate) fn sub(top: &mut usize, stack: &mut [Num]) -> Acted
    requires enough { 2 ≤ top.old }
    requires inside { top.old ≤ length stack.old }
    ensures { Computes op.Sub (operands top.old stack.old) result (operands top.new stack.new) }
{
    let b = pop(top, stack);
    let a = pop(top, stack);
    push_result(top, stack, arithmetic::sub(a, b))
}

#[inline]
pub(crate) fn mul(top: &mut usize, stack: &mut [Num]) -> Acted
    requires enough { 2 ≤ top.old }
    requires inside { top.old ≤ length stack.old }
    ensures { Computes op.Mul (operands top.old stack.old) result (operands top.new stack.new) }
{
    let b = pop(top, stack);
    let a = pop(top, stack);
    push_result(top, stack, arithmetic::mul(a, b))
}

#[inline]
pub(crate) fn div(top: &mut usize, stack: &mut [Num]) -> Acted
    requires enough { 2 ≤ top.old }
    requires inside { top.old ≤ length stack.old }
    ensures { Computes op.Div (operands top.old stack.old) result (operands top.new stack.new) }
{
    let b = pop(top, stack);
    let a = pop(top, stack);
    push_result(top, stack, arithmetic::div(a, b))
}

#[inline]
pub(crate) fn rem(top: &mut usize, stack: &mut [Num]) -> Acted
    requires enough { 2 ≤ top.old }
    requires inside { top.old ≤ length stack.old }
    ensures { Computes op.Mod (operands top.old stack.old) result (operands top.new stack.new) }
{
    let b = pop(top, stack);
    let a = pop(top, stack);
    push_result(top, stack, arithmetic::rem(a, b))
}

#[inline]
pub(crate) fn shl(top: &mut usize, stack: &mut [Num]) -> Acted
    requires enough { 2 ≤ top.old }
    requires inside { top.old ≤ length stack.old }
    ensures { Computes op.Shl (operands top.old stack.old) result (operands top.new stack.new) }
{
    let b = pop(top, stack);
    let a = pop(top, stack);
    push_result(top, stack, arithmetic::shl(a, b))
}

#[inline]
pub(crate) fn shr(top: &mut usize, stack: &mut [Num]) -> Acted
    requires enough { 2 ≤ top.old }
    requires inside { top.old ≤ length stack.old }
    ensures { Computes op.Shr (operands top.old stack.old) result (operands top.new stack.new) }
{
    let b = pop(top, stack);
    let a = pop(top, stack);
    push_result(top, stack, arithmetic::shr(a, b))
}

#[inline]
pub(crate) fn bit_and(top: &mut usize, stack: &mut [Num]) -> Acted
    requires enough { 2 ≤ top.old }
    requires inside { top.old ≤ length stack.old }
    ensures { Computes op.And (operands top.old stack.old) result (operands top.new stack.new) }
{
    let b = pop(top, stack);
    let a = pop(top, stack);
    push_result(top, stack, bits::bit_and(a, b))
}

#[inline]
pub(crate) fn bit_or(top: &mut usize, stack: &mut [Num]) -> Acted
    requires enough { 2 ≤ top.old }
    requires inside { top.old ≤ length stack.old }
    ensures { Computes op.Or (operands top.old stack.old) result (operands top.new stack.new) }
{
    let b = pop(top, stack);
    let a = pop(top, stack);
    push_result(top, stack, bits::bit_or(a, b))
}

#[inline]
pub(crate) fn bit_xor(top: &mut usize, stack: &mut [Num]) -> Acted
    requires enough { 2 ≤ top.old }
    requires inside { top.old ≤ length stack.old }
    ensures { Computes op.Xor (operands top.old stack.old) result (operands top.new stack.new) }
{
    let b = pop(top, stack);
    let a = pop(top, stack);
    push_result(top, stack, bits::bit_xor(a, b))
}

#[inline]
pub(crate) fn eq(top: &mut usize, stack: &mut [Num]) -> Acted
    requires enough { 2 ≤ top.old }
    requires inside { top.old ≤ length stack.old }
    ensures { Computes op.Eq (operands top.old stack.old) result (operands top.new stack.new) }
{
    let b = pop(top, stack);
    let a = pop(top, stack);
    push_result(top, stack, truth::eq(a, b))
}

#[inline]
pub(crate) fn ne(top: &mut usize, stack: &mut [Num]) -> Acted
    requires enough { 2 ≤ top.old }
    requires inside { top.old ≤ length stack.old }
    ensures { Computes op.Ne (operands top.old stack.old) result (operands top.new stack.new) }
{
    let b = pop(top, stack);
    let a = pop(top, stack);
    push_result(top, stack, truth::ne(a, b))
}

#[inline]
pub(crate) fn lt(top: &mut usize, stack: &mut [Num]) -> Acted
    requires enough { 2 ≤ top.old }
    requires inside { top.old ≤ length stack.old }
    ensures { Computes op.Lt (operands top.old stack.old) result (operands top.new stack.new) }
{
    let b = pop(top, stack);
    let a = pop(top, stack);
    push_result(top, stack, truth::lt(a, b))
}

#[inline]
pub(crate) fn le(top: &mut usize, stack: &mut [Num]) -> Acted
    requires enough { 2 ≤ top.old }
    requires inside { top.old ≤ length stack.old }
    ensures { Computes op.Le (operands top.old stack.old) result (operands top.new stack.new) }
{
    let b = pop(top, stack);
    let a = pop(top, stack);
    push_result(top, stack, truth::le(a, b))
}

#[inline]
pub(crate) fn gt(top: &mut usize, stack: &mut [Num]) -> Acted
    requires enough { 2 ≤ top.old }
    requires inside { top.old ≤ length stack.old }
    ensures { Computes op.Gt (operands top.old stack.old) result (operands top.new stack.new) }
{
    let b = pop(top, stack);
    let a = pop(top, stack);
    push_result(top, stack, truth::gt(a, b))
}

#[inline]
pub(crate) fn ge(top: &mut usize, stack: &mut [Num]) -> Acted
    requires enough { 2 ≤ top.old }
    requires inside { top.old ≤ length stack.old }
    ensures { Computes op.Ge (operands top.old stack.old) result (operands top.new stack.new) }
{
    let b = pop(top, stack);
    let a = pop(top, stack);
    push_result(top, stack, truth::ge(a, b))
}

#[inline]
pub(crate) fn neg(top: &mut usize, stack: &mut [Num]) -> Acted
    requires enough { 1 ≤ top.old }
    requires inside { top.old ≤ length stack.old }
    ensures { Computes op.Neg (operands top.old stack.old) result (operands top.new stack.new) }
{
    let a = pop(top, stack);
    push_result(top, stack, arithmetic::neg(a))
}

#[inline]
pub(crate) fn bit_not(top: &mut usize, stack: &mut [Num]) -> Acted
    requires enough { 1 ≤ top.old }
    requires inside { top.old ≤ length stack.old }
    ensures { Computes op.BitNot (operands top.old stack.old) result (operands top.new stack.new) }
{
    let a = pop(top, stack);
    push_result(top, stack, bits::bit_not(a))
}

#[inline]
pub(crate) fn not(top: &mut usize, stack: &mut [Num]) -> Acted
    requires enough { 1 ≤ top.old }
    requires inside { top.old ≤ length stack.old }
    ensures { Computes op.Not (operands top.old stack.old) result (operands top.new stack.new) }
{
    let a = pop(top, stack);
    push_result(top, stack, truth::not(a))
}
