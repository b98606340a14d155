//! Code that is being written.

ghost use Rattle.std.specs.Prelude.{◌≡◌, ◌+◌, ◌∷◌, [], ◌^◌, ◌≤◌, length, IfOk, IfErr, OnOk};
ghost use Rattle.code_ir.specs.declared.instr.Instr.TheVariants as op;
ghost use Rattle.lower_base.specs.declared.fault.LowerFault.TheVariants.{Memory, TooLong, TooManyCells};
ghost use Rattle.lower_base.specs.Lowered.{IsPut};
ghost use Rattle.lower_base.specs.Taking.{HasOneMore};

use crate::fault::LowerFault;
use code_ir::{Instr, Routine};
use rvc_base::Num;

/// Code that is being written: the instructions and the routines so far, and how many cells they use.
#[derive(Drop)]
pub struct Draft {
    pub instrs: Vec<Instr>,
    pub routines: Vec<Routine>,
    pub cells: u32,
}

/// Appends an instruction.
pub fn put(draft: &mut Draft, instr: Instr) -> Result<(), LowerFault>
    ensures added { OnOk result (IsPut (instr ∷ []) draft.old draft.new) }
    ensures memory { IfErr result (λ fault. fault ≡ Memory) }
    ensures cells { draft.new.cells ≡ draft.old.cells }
{
    draft.instrs.push(instr)?;
    Ok(())
}

/// Appends instructions.
pub fn put_all(draft: &mut Draft, instrs: &[Instr]) -> Result<(), LowerFault>
    ensures added { OnOk result (IsPut instrs.now draft.old draft.new) }
    ensures memory { IfErr result (λ fault. fault ≡ Memory) }
    ensures cells { draft.new.cells ≡ draft.old.cells }
{
    draft.instrs.extend_from_slice(instrs)?;
    Ok(())
}

/// Appends an instruction that pushes a number.
pub fn put_const(draft: &mut Draft, value: Num) -> Result<(), LowerFault>
    ensures added { OnOk result (IsPut (op.Const value ∷ []) draft.old draft.new) }
    ensures memory { IfErr result (λ fault. fault ≡ Memory) }
    ensures cells { draft.new.cells ≡ draft.old.cells }
{
    put(draft, Instr::Const(value))
}

/// The place of the instruction that is appended next.
pub fn next_place(draft: &Draft) -> Result<u32, LowerFault>
    ensures place { IfOk result (λ place. place ≡ length draft.now.instrs.items) }
    ensures too_long { IfErr result
        (λ fault. (fault ≡ TooLong) × (2 ^ 32 ≤ length draft.now.instrs.items)) }
{
    match u32::try_from(draft.instrs.len()) {
        Ok(place) => Ok(place),
        Err(_) => Err(LowerFault::TooLong),
    }
}

/// Takes a cell more.
pub fn take_cell(draft: &mut Draft) -> Result<u32, LowerFault>
    ensures taken { IfOk result (HasOneMore draft.old draft.new) }
    ensures fault { IfErr result
        (λ fault. (fault ≡ TooManyCells) × (2 ^ 32 ≤ draft.new.cells + 3)) }
{
    let cell = draft.cells;
    let Some(after) = cell.checked_add(1) else {
        return Err(LowerFault::TooManyCells);
    };
    draft.cells = after;
    Ok(cell)
}
