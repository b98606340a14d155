//! What an instruction reads and writes, and where it leads.

ghost use Rattle.std.specs.Prelude.{◌≡◌};
ghost use Rattle.code_ir.specs.Typing.{goes_on, target};
ghost use Rattle.lower_scratch.specs.Clearing.{ends_body};
ghost use Rattle.lower_scratch.specs.Rows.{called, is_among, writes};

use code_ir::Instr;

/// Whether a cell is one of so many cells from one on.
pub(crate) fn is_among(from: u32, count: u32, cell: usize) -> bool
    ensures { result ≡ is_among from count cell }
{
    from as usize <= cell && cell < from as usize + count as usize
}

/// Whether it surely writes a cell.
pub(crate) fn writes(instr: &Instr, cell: usize) -> bool
    ensures { result ≡ writes instr.now cell }
{
    match *instr {
        Instr::Store(c, _) => c as usize == cell,
        Instr::Copy(to, _, count, _) => is_among(to, count, cell),
        Instr::CopyFrom(to, _, _, count) => is_among(to, count, cell),
        Instr::TokenList(to, _, _, _, count) => is_among(to, count, cell),
        Instr::Zero(from, count) => is_among(from, count, cell),
        _ => false,
    }
}

/// Whether it ends a guard, a firing or a routine.
pub(crate) fn ends_body(instr: &Instr) -> bool
    ensures { result ≡ ends_body instr.now }
{
    match *instr {
        Instr::Answer => true,
        Instr::Done => true,
        Instr::Return => true,
        _ => false,
    }
}

/// Whether the next place may come after it.
pub(crate) fn goes_on(instr: &Instr) -> bool
    ensures { result ≡ goes_on instr.now }
{
    match *instr {
        Instr::Jump(_) => false,
        Instr::Return => false,
        Instr::Answer => false,
        Instr::Done => false,
        _ => true,
    }
}

/// Where it may jump to.
pub(crate) fn target(instr: &Instr) -> Option<u32>
    ensures { result ≡ target instr.now }
{
    match *instr {
        Instr::Jump(t) => Some(t),
        Instr::JumpIfNot(t) => Some(t),
        _ => None,
    }
}

/// The routine that it calls.
pub(crate) fn called(instr: &Instr) -> Option<u32>
    ensures { result ≡ called instr.now }
{
    match *instr {
        Instr::Call(r) => Some(r),
        _ => None,
    }
}
