//! The test that code must pass before it runs.

ghost use Rattle.std.specs.Prelude.{◌≡◌, ◌<◌, ◌≤◌, ℕ, true, IfOk, OnOk, IfErr};
ghost use Rattle.code_ir.specs.Code.{begins, code_of, is_among};
ghost use Rattle.code_ir.specs.Typing.{AllSized, AreDistinct, AreFew, IsAdmitted, IsCause, PlacesStand, Way};
ghost use Rattle.code_ir.specs.Marked.{IsPlaceFault};

use crate::admitted::{Admitted, CodeFault};
use crate::heights::find_heights;
use crate::instr::ActorCode;
use crate::lines::first_unfit;
use crate::places::{bodies, first_wrong, is_among, places};
use std::alloc::Global;

/// Admits code that meets the typing lines.
///
/// The lines speak of the places that begin bodies, which are the starts of the routines and the entries, and of
/// each instruction: where it stands, the heights of the stack on the ways that lead to it, the targets of
/// jumps, the cells and routines that it names, and what comes after it.
///
/// # Errors
///
/// `Bad` if a line is broken (`bad`). It names the first place that may not begin a body, or 0 if no body begins
/// there; else an instruction that breaks a line. `Memory` if memory runs out.
///
/// # Examples
///
/// ```
/// let alloc = rt.alloc();
/// let instrs = [Instr::Load(0), Instr::Store(1, None), Instr::Done];
/// let code = ActorCode {
///     instrs: Vec::from_slice(alloc, &instrs)?,
///     routines: Vec::new(alloc),
///     entries: Vec::from_slice(alloc, &[0])?,
///     cells: 2,
/// };
/// // With `cells: 1` it is `Bad { at: 1 }`, since there is no cell 1.
/// assert!(rt; matches!(admit(alloc, code), Ok(admitted) if admitted.most_operands() == 1));
/// ```
pub fn admit(alloc: Global, code: ActorCode) -> Result<Admitted, CodeFault>
    requires sized { AllSized code.instrs.items }
    requires few { AreFew (code_of code) }
    ensures ok { IfOk result (λ admitted. admitted ≡ code_of code) }
    ensures admitted { IfOk result IsAdmitted }
    ensures bad { IfErr result (IsCause (code_of code)) }
{
    match check(alloc, &code) {
        Ok(most) => Ok(Admitted { code, most }),
        Err(CodeFault::Bad { at }) => Err(CodeFault::Bad { at }),
        Err(CodeFault::Memory) => Err(CodeFault::Memory),
    }
}

/// Checks each line. The greatest height comes back.
fn check(alloc: Global, code: &ActorCode) -> Result<u32, CodeFault>
    requires few { AreFew (code_of code.now) }
    ensures admitted { OnOk result (IsAdmitted (code_of code.now)) }
    ensures most { IfOk result (λ most. (p h : ℕ) → Way (code_of code.now) p h → h ≤ most) }
    ensures bad { IfErr result (IsCause (code_of code.now)) }
{
    let Ok(begins) = places(alloc, code) else {
        return Err(CodeFault::Memory)
    };
    match check_places(&begins, code.instrs.len()) {
        Ok(()) => check_instrs(alloc, code, &begins),
        Err(CodeFault::Bad { at }) => Err(CodeFault::Bad { at }),
        Err(CodeFault::Memory) => Err(CodeFault::Memory),
    }
}

/// Checks that the places are distinct and in range, and that 0 is one of them unless there are no instructions.
fn check_places(places: &[u32], size: usize) -> Result<(), CodeFault>
    ensures distinct { OnOk result (AreDistinct size places.now) }
    ensures first { OnOk result (0 < size → is_among 0 places.now ≡ true) }
    ensures bad { IfErr result (IsPlaceFault size places.now) }
{
    if let Some(at) = first_wrong(places, size) {
        return Err(CodeFault::Bad { at });
    }
    if size > 0 && !is_among(0, places) {
        return Err(CodeFault::Bad { at: 0 });
    }
    Ok(())
}

/// Checks the lines of each instruction. The greatest height comes back.
fn check_instrs(alloc: Global, code: &ActorCode, places: &[u32]) -> Result<u32, CodeFault>
    requires places { places.now ≡ begins (code_of code.now) }
    requires stand { PlacesStand (code_of code.now) }
    requires few { AreFew (code_of code.now) }
    ensures admitted { OnOk result (IsAdmitted (code_of code.now)) }
    ensures most { IfOk result (λ most. (p h : ℕ) → Way (code_of code.now) p h → h ≤ most) }
    ensures bad { IfErr result (IsCause (code_of code.now)) }
{
    let Ok(bodies) = bodies(alloc, code, places) else {
        return Err(CodeFault::Memory)
    };
    match first_unfit(code, places, &bodies) {
        Some(at) => Err(CodeFault::Bad { at }),
        None => {
            match find_heights(alloc, code, places, &bodies) {
                Ok(most) => Ok(most),
                Err(CodeFault::Bad { at }) => Err(CodeFault::Bad { at }),
                Err(CodeFault::Memory) => Err(CodeFault::Memory),
            }
        }
    }
}
