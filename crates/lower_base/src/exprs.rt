//! Expressions without parts as code, and the targets of jumps.

ghost use Rattle.std.specs.Prelude.{◌≡◌, ◌<◌, ◌≤◌, List, ℕ, length, map};
ghost use Rattle.std.specs.Prelude.{IfErr, OnOk};
ghost use Rattle.cal_ast.specs.Tree as tree;
ghost use Rattle.lower_base.specs.declared.fault.LowerFault.TheVariants.{Memory};
ghost use Rattle.lower_base.specs.Coding.{aimed, one_too_great};
ghost use Rattle.lower_base.specs.Linking.{Closes, Links};
ghost use Rattle.lower_base.specs.Lowered.{IsPut};
ghost use Rattle.lower_base.specs.SeenWords.{IsAll, IsWhy, Lowers, Offsets};

use crate::draft::{Draft, put, put_const};
use crate::fault::LowerFault;
use crate::names::one_named;
use crate::operators::seat_instr;
use crate::scope::Scope;
use code_ir::Instr;
use rvc_base::Num;

/// Appends a number as it is written.
pub fn number(value: u128, draft: &mut Draft) -> Result<(), LowerFault>
    ensures ok { (scope : Scope) (at : ℕ)
        → OnOk result (Lowers scope (tree.number value at) draft.old draft.new) }
    ensures memory { IfErr result (λ fault. fault ≡ Memory) }
    ensures cells { draft.new.cells ≡ draft.old.cells }
{
    match Num::try_from(value) {
        Ok(value) => put_const(draft, value),
        Err(_) => overflow(draft),
    }
}

/// Appends a truth value: 0 or 1.
pub fn truth(value: bool, draft: &mut Draft) -> Result<(), LowerFault>
    ensures ok { (scope : Scope) (at : ℕ)
        → OnOk result (Lowers scope (tree.truth value at) draft.old draft.new) }
    ensures memory { IfErr result (λ fault. fault ≡ Memory) }
    ensures cells { draft.new.cells ≡ draft.old.cells }
{
    if value {
        put_const(draft, 1)
    } else {
        put_const(draft, 0)
    }
}

/// Appends code that traps: a sum that is one greater than the greatest number.
fn overflow(draft: &mut Draft) -> Result<(), LowerFault>
    ensures added { OnOk result (IsPut one_too_great draft.old draft.new) }
    ensures memory { IfErr result (λ fault. fault ≡ Memory) }
    ensures cells { draft.new.cells ≡ draft.old.cells }
{
    put(draft, Instr::Const(Num::MAX))?;
    put(draft, Instr::Const(1))?;
    put(draft, Instr::Add)
}

/// Appends a variable, which must be that of a single value.
pub fn variable(scope: &Scope, text: &str, at: u32, draft: &mut Draft) -> Result<(), LowerFault>
    ensures ok { OnOk result (Lowers scope.now (tree.variable text.now at) draft.old draft.new) }
    ensures whole { OnOk result (IsAll scope.now (tree.variable text.now at)) }
    ensures fault { IfErr result (IsWhy scope.now (tree.variable text.now at) draft.new) }
    ensures cells { draft.new.cells ≡ draft.old.cells }
{
    let Some(one) = one_named(scope, text) else {
        return Err(LowerFault::NotLowered { at });
    };
    put(draft, seat_instr(one.seat))
}

/// Appends the offset of a whole list, which is 0.
pub fn whole_offset(draft: &mut Draft) -> Result<(), LowerFault>
    ensures ok { (scope : Scope) (text : List ℕ) (at : ℕ)
        → OnOk result (Offsets scope (tree.variable text at) draft.old draft.new) }
    ensures memory { IfErr result (λ fault. fault ≡ Memory) }
    ensures cells { draft.new.cells ≡ draft.old.cells }
{
    put_const(draft, 0)
}

/// Sets the targets of the jumps that stand from `start` to `exits` for a condition that is false, and that of the
/// jump at `jump`.
pub fn link(draft: &mut Draft, start: usize, exits: usize, out: u32, jump: usize, end: u32)
    requires order { (start ≤ exits) × (exits ≤ jump) × (jump < length draft.old.instrs.items) }
    ensures linked { Links draft.old.instrs.items draft.new.instrs.items start exits out jump end }
    ensures routines { draft.new.routines.items ≡ draft.old.routines.items }
    ensures cells { draft.new.cells ≡ draft.old.cells }
{
    aim(&mut draft.instrs[start..exits], out);
    draft.instrs[jump] = Instr::Jump(end);
}

/// Sets the targets of the jumps that stand from `start` to `exits` for a condition that is false.
pub fn close(draft: &mut Draft, start: usize, exits: usize, out: u32)
    requires order { (start ≤ exits) × (exits ≤ length draft.old.instrs.items) }
    ensures closed { Closes draft.old.instrs.items draft.new.instrs.items start exits out }
    ensures routines { draft.new.routines.items ≡ draft.old.routines.items }
    ensures cells { draft.new.cells ≡ draft.old.cells }
{
    aim(&mut draft.instrs[start..exits], out);
}

/// Sets the target of the jumps for which `Done` stands.
fn aim(part: &mut [Instr], out: u32)
    ensures { part.new ≡ map (aimed out) part.old }
{
    for instr in part.iter_mut() {
        *instr = aimed(*instr, out);
    }
}

/// The instruction with its target, if `Done` stands for a jump.
fn aimed(instr: Instr, out: u32) -> Instr
    ensures { result ≡ aimed out instr }
{
    match instr {
        Instr::Done => Instr::JumpIfNot(out),
        _ => instr,
    }
}
