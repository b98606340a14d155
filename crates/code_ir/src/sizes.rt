//! What to ask of code before it is admitted: the sizes of its types, and how many instructions it has.

ghost use Rattle.std.specs.Bool.{MatchBool};
ghost use Rattle.rvc_base.specs.Storing.{IsSize};
ghost use Rattle.code_ir.specs.Code.{code_of};
ghost use Rattle.code_ir.specs.Typing.{AllSized, AreFew, HasSizes, IsSized};

use crate::instr::{ActorCode, Instr};
use rvc_base::{MAX_SIZE, Scalar};

/// Whether a type has a size that a type may have.
fn is_size(t: Scalar) -> bool
    ensures { MatchBool result (IsSize t) (¬ IsSize t) }
{
    match t {
        Scalar::Bool => true,
        Scalar::Int(size) => 1 <= size && size <= MAX_SIZE,
        Scalar::Uint(size) => 1 <= size && size <= MAX_SIZE,
    }
}

/// Whether the type in which a number is stored, if there is one, has such a size.
fn is_sized(t: Option<Scalar>) -> bool
    ensures { MatchBool result (IsSized t) (¬ IsSized t) }
{
    match t {
        None => true,
        Some(t) => is_size(t),
    }
}

/// Whether the type that an instruction names, if it names one, has such a size.
fn has_sizes(instr: &Instr) -> bool
    ensures { MatchBool result (HasSizes instr.now) (¬ HasSizes instr.now) }
{
    match *instr {
        Instr::Store(_, t) => is_sized(t),
        Instr::StoreAt(_, _, t) => is_sized(t),
        Instr::Copy(_, _, _, t) => is_sized(t),
        Instr::CopyTo(_, _, _, _, t) => is_sized(t),
        _ => true,
    }
}

/// Whether each type that the instructions name has a size that a type may have: from 1 to [`MAX_SIZE`].
pub fn are_sized(instrs: &[Instr]) -> bool
    ensures { MatchBool result (AllSized instrs.now) (¬ AllSized instrs.now) }
{
    for instr in instrs {
        if !has_sizes(instr) {
            return false;
        }
    }
    true
}

/// Whether a `u32` counts the instructions of the code, and its routines.
pub fn are_few(code: &ActorCode) -> bool
    ensures { MatchBool result (AreFew (code_of code.now)) (¬ AreFew (code_of code.now)) }
{
    let most = u32::MAX as usize;
    code.instrs.len() <= most && code.routines.len() <= most
}
