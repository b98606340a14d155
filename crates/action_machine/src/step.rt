//! One step of the machine.

ghost use Rattle.std.specs.Prelude.{◌≡◌, ◌+◌, ◌^◌, ◌≤◌, ◌<◌, ℕ, ℤ, List, length};
ghost use Rattle.code_ir.specs.Code.{Code};
ghost use Rattle.code_ir.specs.Running.{State, step, go_on, jump_if_not, turn, call, return, answer};
ghost use Rattle.action_machine.specs.Acting.{OnFails, effect_of};
ghost use Rattle.action_machine.specs.Stacks.{operands, top_first};
ghost use Rattle.action_machine.specs.Machine.{IsReady, next_of, state_of};

use crate::carrying::carry_out;
use crate::registers::Registers;
use crate::stack::{Acted, pop};
use code_ir::{Admitted, Instr, Outcome, Routine, Tokens};
use rvc_base::{Num, Trap};

/// Pops a number, and goes to a place if it is 0.
#[inline]
fn jump_if_not(t: u32, at: &mut Registers, stack: &[Num])
    requires some { 0 < at.old.top }
    requires below { at.old.top ≤ length stack.now }
    requires small { at.old.place + 1 < 2 ^ 64 }
    ensures { (frames : List ℕ) (cells : List ℤ) →
        jump_if_not t (state_of at.old stack.now frames cells) (operands at.old.top stack.now)
        ≡ next_of None (state_of at.new stack.now frames cells) }
{
    let v = pop(&mut at.top, stack);
    at.place = if v == 0 { t as usize } else { at.place + 1 };
}

/// Counts one turn.
#[inline]
fn turn(at: &mut Registers) -> Option<Outcome>
    requires small { at.old.place + 1 < 2 ^ 64 }
    ensures { (stack cells : List ℤ) (frames : List ℕ) →
        turn (state_of at.old stack frames cells) at.old.left
        ≡ next_of result (state_of at.new stack frames cells) }
{
    if at.left == 0 {
        return Some(Outcome::Trap(Trap::TurnLimit));
    }
    at.left -= 1;
    at.place += 1;
    None
}

/// Goes to the start of a routine.
#[inline]
fn call(r: u32, routines: &[Routine], at: &mut Registers, frames: &mut [usize])
    requires there { r < length routines.now }
    requires room { at.old.depth < length frames.old }
    requires small { at.old.place + 1 < 2 ^ 64 }
    ensures { (code : Code) (stack cells : List ℤ) → code.routines ≡ routines.now →
        call code r (state_of at.old stack frames.old cells)
        ≡ next_of None (state_of at.new stack frames.new cells) }
{
    frames[at.depth] = at.place + 1;
    at.depth += 1;
    let Routine { start, results: _ } = routines[r as usize];
    at.place = start as usize;
}

/// Goes on after the call that was made last.
#[inline]
fn come_back(at: &mut Registers, frames: &[usize])
    requires some { 0 < at.old.depth }
    requires below { at.old.depth ≤ length frames.now }
    ensures { (stack cells : List ℤ) →
        return (state_of at.old stack frames.now cells) (top_first 0 at.old.depth frames.now)
        ≡ next_of None (state_of at.new stack frames.now cells) }
{
    at.depth -= 1;
    at.place = frames[at.depth];
}

/// Pops the answer of a guard.
#[inline]
fn answer(at: &mut Registers, stack: &[Num]) -> Outcome
    requires some { 0 < at.old.top }
    requires below { at.old.top ≤ length stack.now }
    ensures { (frames : List ℕ) (cells : List ℤ) →
        answer (state_of at.old stack.now frames cells) (operands at.old.top stack.now)
        ≡ next_of (Some result) (state_of at.new stack.now frames cells) }
{
    let v = pop(&mut at.top, stack);
    if v == 0 {
        Outcome::False
    } else {
        Outcome::True
    }
}

/// Goes to the next place, unless the instruction failed.
#[inline]
fn go_on(at: &mut Registers, acted: Acted) -> Option<Outcome>
    requires small { at.old.place + 1 < 2 ^ 64 }
    ensures { (s : State) (stack cells : List ℤ) (frames : List ℕ) →
        s.place ≡ at.old.place → s.left ≡ at.old.left → s.frames ≡ top_first 0 at.old.depth frames →
        OnFails acted (cells ≡ s.cells) →
        go_on s (effect_of acted (operands at.old.top stack) cells)
        ≡ next_of result (state_of at.new stack frames cells) }
{
    match acted {
        Acted::On => {
            at.place += 1;
            None
        }
        Acted::Fails(trap) => Some(Outcome::Trap(trap)),
    }
}

/// Makes one step. The outcome comes if the run is over then.
#[inline]
pub(crate) fn step<T: Tokens>(
    code: &Admitted,
    at: &mut Registers,
    stack: &mut [Num],
    frames: &mut [usize],
    cells: &mut [Num],
    tokens: &T,
) -> Option<Outcome>
    requires { IsReady code.now (T.tokens tokens.now)
        (state_of at.old stack.old frames.old cells.old) (length stack.old) (length frames.old) }
    ensures { step code.now (T.tokens tokens.now) (state_of at.old stack.old frames.old cells.old)
        ≡ next_of result (state_of at.new stack.new frames.new cells.new) }
{
    let instr = &code.instrs()[at.place];
    match *instr {
        Instr::Jump(t) => {
            at.place = t as usize;
            None
        }
        Instr::JumpIfNot(t) => {
            jump_if_not(t, at, stack);
            None
        }
        Instr::Turn => turn(at),
        Instr::Call(r) => {
            call(r, code.routines(), at, frames);
            None
        }
        Instr::Return => {
            come_back(at, frames);
            None
        }
        Instr::Answer => Some(answer(at, stack)),
        Instr::Done => Some(Outcome::Done),
        _ => {
            let acted = carry_out(instr, &mut at.top, stack, cells, tokens);
            go_on(at, acted)
        }
    }
}
