//! Code that meets the typing lines.

ghost use Rattle.std.specs.Prelude.{◌≡◌, ◌≤◌, ℕ};
ghost use Rattle.code_ir.specs.Code.{is_among};
ghost use Rattle.code_ir.specs.Typing.{AllSized, AreFew, IsAdmitted, Way};

use crate::instr::{ActorCode, Instr, Routine};
use crate::places::is_among;
use std::marker::Model;

/// Why code isn't admitted.
#[derive(Clone, Copy, Debug, PartialEq, Eq)]
pub enum CodeFault {
    /// The instruction at this place breaks a typing line, or no body may begin here.
    Bad { at: u32 },
    /// An allocation was refused.
    Memory,
}

/// Code that meets the typing lines, and so runs without a fault other than those that it may trap with.
#[derive(Drop)]
pub struct Admitted {
    pub(crate) code: ActorCode,
    /// No way through the code has more operands on the stack.
    pub(crate) most: u32,
}

impl Model for Admitted {
    ghost use Rattle.std.specs.Prelude.{ℕ, ◌≤◌};
    ghost use Rattle.code_ir.specs.Code.{Code};

    ghost Value = { Code };

    ghost use Rattle.code_ir.specs.Code.{code_of};
    ghost use Rattle.code_ir.specs.Typing.{AllSized, AreFew, IsAdmitted, Way};

    ghost view = { λ a. code_of a.code };

    ghost invariant = { λ a. IsAdmitted (code_of a.code) × AllSized a.code.instrs.items
        × ((p h : ℕ) → Way (code_of a.code) p h → h ≤ a.most) × AreFew (code_of a.code) };
}

impl Admitted {
    /// The instructions.
    #[inline]
    pub fn instrs(&self) -> &[Instr]
        ensures { result.now ≡ self.now.instrs }
    {
        &self.code.instrs
    }

    /// The routines.
    #[inline]
    pub fn routines(&self) -> &[Routine]
        ensures { result.now ≡ self.now.routines }
    {
        &self.code.routines
    }

    /// The places where runs start.
    #[inline]
    pub fn entries(&self) -> &[u32]
        ensures { result.now ≡ self.now.entries }
    {
        &self.code.entries
    }

    /// Whether a run may start at this place.
    pub fn is_entry(&self, place: u32) -> bool
        ensures { result ≡ is_among place self.now.entries }
    {
        is_among(place, &self.code.entries)
    }

    /// How many cells the code has.
    #[inline]
    pub fn cells(&self) -> u32
        ensures { result ≡ self.now.cells }
    {
        self.code.cells
    }

    /// How many operands a body puts on the stack at most.
    pub fn most_operands(&self) -> u32
        ensures most { (p h : ℕ) → Way self.now p h → h ≤ result }
        ensures admitted { IsAdmitted self.now }
        ensures sized { AllSized self.now.instrs }
        ensures few { AreFew self.now }
    {
        self.most
    }
}
