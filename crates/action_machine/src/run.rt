//! Runs of admitted code.

ghost use Rattle.std.specs.Prelude.{◌≡◌, true, length};
ghost use Rattle.code_ir.specs.Code.{Code, is_among};
ghost use Rattle.code_ir.specs.Running.{HasItsTokens, runs};
ghost use Rattle.action_machine.specs.Kept.{IsMadeFor};
ghost use Rattle.action_machine.specs.Machine.{HasRoom};

use crate::kept::Cells;
use crate::registers::Registers;
use crate::step::step;
use code_ir::{Admitted, Outcome, Tokens, laws};
use rvc_base::{MAX_TURNS, Num};

/// Code that runs.
pub trait Run {
    ghost code: { Self → Code };

    /// Runs the code from an entry, on cells that were made for it, and on the tokens before the actor.
    ///
    /// It takes no memory. The run ends: by `Done` at the end of a firing, by `True` or `False` at the end of a
    /// guard, or by the trap that cuts it off. What it stored until then stands in the cells.
    fn run<T: Tokens>(&self, entry: u32, cells: &mut Cells, tokens: &T) -> Outcome
        requires entry { is_among entry (code self.now).entries ≡ true }
        requires made { IsMadeFor (code self.now) cells.old }
        requires tokens { HasItsTokens (code self.now) entry cells.old.numbers
            (T.tokens tokens.now) }
        ensures runs { runs (code self.now) entry cells.old.numbers
            (T.tokens tokens.now) result cells.new.numbers }
        ensures made { IsMadeFor (code self.now) cells.new }
        ensures operands { cells.new.operands ≡ cells.old.operands }
        ensures calls { cells.new.calls ≡ cells.old.calls };
}

impl Run for Admitted {
    ghost code = { λ c. c };

    #[inline]
    fn run<T: Tokens>(&self, entry: u32, cells: &mut Cells, tokens: &T) -> Outcome {
        run_in(
            self,
            entry,
            &mut cells.stack,
            &mut cells.frames,
            &mut cells.numbers,
            &mut cells.turns,
            tokens,
        )
    }
}

/// Runs the code from an entry, with these slices for its operands and its open calls. `turns` is told how many it made.
fn run_in<T: Tokens>(
    code: &Admitted,
    entry: u32,
    stack: &mut [Num],
    frames: &mut [usize],
    cells: &mut [Num],
    turns: &mut u32,
    tokens: &T,
) -> Outcome
    requires entry { is_among entry code.now.entries ≡ true }
    requires size { length cells.old ≡ code.now.cells }
    requires room { HasRoom code.now (length stack.old) (length frames.old) }
    requires tokens { HasItsTokens code.now entry cells.old (T.tokens tokens.now) }
    ensures { runs code.now entry cells.old (T.tokens tokens.now) result cells.new }
{
    let _most = code.most_operands();
    let _count = code.cells();
    laws::stands();
    let mut at = Registers {
        place: entry as usize,
        top: 0,
        depth: 0,
        left: MAX_TURNS,
    };
    'steps: loop {
        match step(code, &mut at, stack, frames, cells, tokens) {
            Some(outcome) => {
                *turns = later_turns(*turns, at.left);
                return outcome;
            }
            None => {}
        }
    }
}

/// What is kept of turns after a run that left so many: its own, or what was kept before and loses a little with each run.
#[inline]
fn later_turns(before: u32, left: u32) -> u32 {
    let faded = (before - before / 64).saturating_sub(1);
    MAX_TURNS.saturating_sub(left).max(faded)
}
