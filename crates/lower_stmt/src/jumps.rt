//! Jumps whose targets are set when they are known.

ghost use Rattle.std.specs.Prelude.{◌≡◌, ◌<◌, length};
ghost use Rattle.lower_stmt.specs.Jumping.{SetsExit, SetsJump};

use code_ir::Instr;
use lower_base::Draft;

/// Sets the target of the jump at a place.
pub(crate) fn jump_at(draft: &mut Draft, place: usize, target: u32)
    requires inside { place < length draft.old.instrs.items }
    ensures aimed { SetsJump draft.old.instrs.items draft.new.instrs.items place target }
    ensures routines { draft.new.routines.items ≡ draft.old.routines.items }
    ensures cells { draft.new.cells ≡ draft.old.cells }
{
    draft.instrs[place] = Instr::Jump(target);
}

/// Sets the target of the jump at a place that is for a condition that is false.
pub(crate) fn exit_at(draft: &mut Draft, place: usize, target: u32)
    requires inside { place < length draft.old.instrs.items }
    ensures aimed { SetsExit draft.old.instrs.items draft.new.instrs.items place target }
    ensures size { length draft.new.instrs.items ≡ length draft.old.instrs.items }
    ensures routines { draft.new.routines.items ≡ draft.old.routines.items }
    ensures cells { draft.new.cells ≡ draft.old.cells }
{
    draft.instrs[place] = Instr::JumpIfNot(target);
}
