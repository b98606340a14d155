//! The cells of running code, with the room that its runs need.

ghost use Rattle.std.specs.Prelude.{◌≡◌, ◌<◌, length, slice_get, slice_set, Some};
ghost use Rattle.code_ir.specs.Code.{Code};
ghost use Rattle.action_machine.specs.Kept.{IsMadeFor};

use rvc_base::Num;
use std::marker::Model;

/// The cells of code. They hold a number each, and keep the room that a run needs, so that it takes no memory.
#[derive(Drop)]
pub struct Cells {
    pub(crate) numbers: Vec<Num>,
    pub(crate) stack: Vec<Num>,
    pub(crate) frames: Vec<usize>,
    pub(crate) turns: u32,
}

impl Model for Cells {
    ghost use Rattle.std.specs.Prelude.{length};
    ghost use Rattle.action_machine.specs.Kept.{Kept};

    ghost Value = { Kept };

    ghost view = { λ a. record {
      numbers = a.numbers.items;
      operands = length a.stack.items;
      calls = length a.frames.items;
    } };
}

impl Cells {
    /// How many cells there are.
    #[inline]
    pub fn count(&self) -> usize
        ensures { result ≡ length self.now.numbers }
    {
        self.numbers.len()
    }

    /// About how many turns the longest of the latest runs on these cells made. Nothing is promised of it but that it is a
    /// number: it is for those who want to know where the time goes.
    #[inline]
    pub fn late_turns(&self) -> u32 {
        self.turns
    }

    /// The number in a cell.
    #[inline]
    pub fn get(&self, cell: u32) -> Num
        requires { cell < length self.now.numbers }
        ensures { slice_get self.now.numbers cell ≡ Some result }
    {
        self.numbers[cell as usize]
    }

    /// Puts a number in a cell.
    #[inline]
    pub fn set(&mut self, cell: u32, v: Num)
        requires { cell < length self.old.numbers }
        ensures number { self.new.numbers ≡ slice_set self.old.numbers cell v }
        ensures operands { self.new.operands ≡ self.old.operands }
        ensures calls { self.new.calls ≡ self.old.calls }
        ensures made { (code : Code) → IsMadeFor code self.old → IsMadeFor code self.new }
    {
        let place = cell as usize;
        self.numbers[place] = v;
    }
}
