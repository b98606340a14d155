//! The instructions that read tokens.

ghost use Rattle.std.specs.Prelude.{◌≡◌, ◌≢◌, ◌+◌, ◌^◌, ◌≤◌, ◌<◌, ℤ, List, pos, length, None, Some};
ghost use Rattle.code_ir.specs.declared.instr.Instr.TheVariants as op;
ghost use Rattle.code_ir.specs.Effect.{LacksToken, effect, taken};
ghost use Rattle.action_machine.specs.Stacks.{operands};
ghost use Rattle.action_machine.specs.Acting.{effect_of};

use crate::offset::offset;
use crate::stack::{Acted, pop, push};
use code_ir::Tokens;
use rvc_base::{Num, Trap};

/// Pushes a token of a port.
#[inline]
pub(crate) fn token<T: Tokens>(
    port: u32,
    place: u32,
    top: &mut usize,
    stack: &mut [Num],
    tokens: &T,
) -> Acted
    requires room { top.old < length stack.old }
    requires there { (cells : List ℤ) →
        effect (T.tokens tokens.now) (op.Token port place) (operands top.old stack.old) cells
        ≢ LacksToken }
    ensures { (cells : List ℤ) →
        effect (T.tokens tokens.now) (op.Token port place) (operands top.old stack.old) cells
        ≡ effect_of result (operands top.new stack.new) cells }
{
    push(top, stack, tokens.at(port, place));
    Acted::On
}

/// Pops an index, and pushes the token of a port that is so many steps behind `first`.
#[inline]
pub(crate) fn token_at<T: Tokens>(
    port: u32,
    first: u32,
    step: u32,
    len: u32,
    top: &mut usize,
    stack: &mut [Num],
    tokens: &T,
) -> Acted
    requires some { 0 < top.old }
    requires below { top.old ≤ length stack.old }
    requires there { (cells : List ℤ) →
        effect (T.tokens tokens.now) (op.TokenAt port first step len)
        (operands top.old stack.old) cells
        ≢ LacksToken }
    ensures { (cells : List ℤ) →
        effect (T.tokens tokens.now) (op.TokenAt port first step len)
        (operands top.old stack.old) cells
        ≡ effect_of result (operands top.new stack.new) cells }
{
    let i = pop(top, stack);
    match offset(i, 1, len) {
        None => Acted::Fails(Trap::IndexRange),
        Some(j) => {
            let _count = tokens.count(port);
            let place = u64::from(first) + u64::from(j) * u64::from(step);
            push(top, stack, tokens.at(port, place as u32));
            Acted::On
        }
    }
}

/// Puts `count` tokens of a port, from `first` in steps, into the cells from `target`.
#[inline]
pub(crate) fn token_list<T: Tokens>(
    target: u32,
    port: u32,
    first: u32,
    step: u32,
    count: u32,
    cells: &mut [Num],
    tokens: &T,
) -> Acted
    requires inside { target + count ≤ length cells.old }
    requires there { (stack : List ℤ) →
        effect (T.tokens tokens.now) (op.TokenList target port first step count) stack cells.old
        ≢ LacksToken }
    ensures { (stack : List ℤ) →
        effect (T.tokens tokens.now) (op.TokenList target port first step count) stack cells.old
        ≡ effect_of result stack cells.new }
{
    let first = u64::from(first);
    take_tokens(
        target as usize,
        port,
        first,
        u64::from(step),
        count,
        cells,
        tokens,
    );
    Acted::On
}

/// Puts `count` tokens of a port, from `first` in steps, into the cells from `target`.
#[inline]
fn take_tokens<T: Tokens>(
    target: usize,
    port: u32,
    first: u64,
    step: u64,
    count: u32,
    cells: &mut [Num],
    tokens: &T,
)
    requires inside { target + count ≤ length cells.old }
    requires start { first < 2 ^ 32 }
    requires step { step < 2 ^ 32 }
    requires there { taken (T.tokens tokens.now port) target first step count cells.old ≢ None }
    ensures { taken (T.tokens tokens.now port) target first step count cells.old
        ≡ Some cells.new }
{
    let _count = tokens.count(port);
    for i in 0..count {
        let place = first + u64::from(i) * step;
        cells[target + i as usize] = tokens.at(port, place as u32);
    }
}
