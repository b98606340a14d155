//! The instructions that go to the next place.

ghost use Rattle.std.specs.Prelude.{◌≡◌, ◌≢◌, ◌+◌, ◌≤◌, pos, length};
ghost use Rattle.code_ir.specs.Effect.{effect, LacksToken};
ghost use Rattle.code_ir.specs.Typing.{HasSizes, NamesCells, pops};
ghost use Rattle.action_machine.specs.Stacks.{operands};
ghost use Rattle.action_machine.specs.Acting.{OnFails, effect_of};
ghost use Rattle.action_machine.specs.Machine.{IsPlain, rises};

use crate::indexed::{copy_from, copy_to, index, load_at, store_at};
use crate::loads::{constant, drop_top, load, store};
use crate::operators;
use crate::ranges::{copy, zero};
use crate::reads::{token, token_at, token_list};
use crate::stack::Acted;
use code_ir::{Instr, Tokens};
use rvc_base::Num;

/// Carries out an instruction that goes to the next place. If it fails the cells are as before.
#[inline]
pub(crate) fn carry_out<T: Tokens>(
    instr: &Instr,
    top: &mut usize,
    stack: &mut [Num],
    cells: &mut [Num],
    tokens: &T,
) -> Acted
    requires plain { IsPlain instr.now }
    requires enough { pops instr.now ≤ top.old }
    requires room { rises instr.now + top.old ≤ length stack.old }
    requires cells { NamesCells (length cells.old) instr.now }
    requires small { length cells.old ≤ 4294967295 }
    requires sized { HasSizes instr.now }
    requires tokens { effect (T.tokens tokens.now) instr.now (operands top.old stack.old) cells.old
        ≢ LacksToken }
    ensures effect { effect (T.tokens tokens.now) instr.now (operands top.old stack.old) cells.old
        ≡ effect_of result (operands top.new stack.new) cells.new }
    ensures kept { OnFails result (cells.new ≡ cells.old) }
{
    match *instr {
        Instr::Const(v) => constant(v, top, stack),
        Instr::Load(cell) => load(cell, top, stack, cells),
        Instr::Store(cell, t) => store(cell, t, top, stack, cells),
        Instr::Index(len, step) => index(len, step, top, stack),
        Instr::LoadAt(source, len) => load_at(source, len, top, stack, cells),
        Instr::StoreAt(target, len, t) => store_at(target, len, t, top, stack, cells),
        Instr::Copy(target, source, count, t) => copy(target, source, count, t, cells),
        Instr::CopyTo(target, len, source, count, t) => {
            copy_to(target, len, source, count, t, top, stack, cells)
        }
        Instr::CopyFrom(target, source, len, count) => {
            copy_from(target, source, len, count, top, stack, cells)
        }
        Instr::Token(port, place) => token(port, place, top, stack, tokens),
        Instr::TokenAt(port, first, step, len) => {
            token_at(port, first, step, len, top, stack, tokens)
        }
        Instr::TokenList(target, port, first, step, count) => {
            token_list(target, port, first, step, count, cells, tokens)
        }
        Instr::Zero(target, count) => zero(target, count, cells),
        Instr::Neg => operators::neg(top, stack),
        Instr::BitNot => operators::bit_not(top, stack),
        Instr::Not => operators::not(top, stack),
        Instr::Add => operators::add(top, stack),
        Instr::Sub => operators::sub(top, stack),
        Instr::Mul => operators::mul(top, stack),
        Instr::Div => operators::div(top, stack),
        Instr::Mod => operators::rem(top, stack),
        Instr::Shl => operators::shl(top, stack),
        Instr::Shr => operators::shr(top, stack),
        Instr::And => operators::bit_and(top, stack),
        Instr::Or => operators::bit_or(top, stack),
        Instr::Xor => operators::bit_xor(top, stack),
        Instr::Eq => operators::eq(top, stack),
        Instr::Ne => operators::ne(top, stack),
        Instr::Lt => operators::lt(top, stack),
        Instr::Le => operators::le(top, stack),
        Instr::Gt => operators::gt(top, stack),
        Instr::Ge => operators::ge(top, stack),
        Instr::Drop => drop_top(top, stack),
        Instr::Jump(_)
        | Instr::JumpIfNot(_)
        | Instr::Turn
        | Instr::Call(_)
        | Instr::Return
        | Instr::Answer
        | Instr::Done => unreachable!(),
    }
}
