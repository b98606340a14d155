//! The locals of an action as code.

ghost use Rattle.std.specs.Prelude.{◌≡◌, ◌∷◌, [], IfErr, OnOk};
ghost use Rattle.lower_base.specs.declared.fault.LowerFault.TheVariants.{Memory};
ghost use Rattle.action_lower.specs.LocalCode.{AddsLocals, AreWholeLocals, IsLocalFault, IsLocalsFault, IsWholeLocal};
ghost use Rattle.action_lower.specs.LocalWords.{IsInFront, IsInFrontAt};

use crate::shapes::copy_shape;
use cal_model::BoundLocal;
use lower_base::{Callee, Draft, LowerFault, Named, Scope, Seat};
use lower_stmt::start_local;

/// Appends the code of locals, one after the other, and puts the name of each in front of `names`.
///
/// `names` holds the names that the starts use; the first of several that are the same is meant. Each start sees the
/// locals before it. It may call `callees`. A local takes a cell for each of its numbers, which are added to the draft:
/// the code leaves there its start, stored in its type, or 0 and false if it has none. What stood in the draft stays.
///
/// # Errors
///
/// `NotLowered` if a start has a part for which no code is made, with its offset, or with the offset 0 if a local is a
/// list of a type whose sizes aren't allowed. `TooLong` if the draft has 2 to the power of 32 instructions.
/// `TooManyCells` if the numbers of the cells that are used don't fit. `Memory` if memory runs out.
pub fn lower_locals(
    names: &mut Vec<Named>,
    callees: &[Callee],
    locals: &[BoundLocal],
    draft: &mut Draft,
) -> Result<(), LowerFault>
    ensures code { OnOk result (AddsLocals callees.now locals.now names.old.items
        names.new.items draft.old draft.new) }
    ensures whole { OnOk result (AreWholeLocals callees.now names.old.items locals.now) }
    ensures fault { IfErr result
        (IsLocalsFault callees.now names.old.items locals.now draft.new) }
{
    let Some((first, rest)) = locals.split_first() else {
        return Ok(());
    };
    lower_local(names, callees, first, draft)?;
    lower_locals(names, callees, rest, draft)
}

/// Appends the code of a local, and puts its name in front of names.
fn lower_local(
    names: &mut Vec<Named>,
    callees: &[Callee],
    x: &BoundLocal,
    draft: &mut Draft,
) -> Result<(), LowerFault>
    ensures code { OnOk result (AddsLocals callees.now (x.now ∷ []) names.old.items
        names.new.items draft.old draft.new) }
    ensures front { OnOk result (IsInFront x.now names.old.items names.new.items) }
    ensures whole { OnOk result (IsWholeLocal callees.now names.old.items x.now) }
    ensures fault { IfErr result (IsLocalFault callees.now names.old.items x.now draft.new) }
{
    let cell = start_local(&Scope::outermost(names, callees), x, draft)?;
    put_front(names, x, cell)
}

/// Puts the name of a local, whose value stands in the cells from one on, in front of names.
fn put_front(names: &mut Vec<Named>, x: &BoundLocal, cell: u32) -> Result<(), LowerFault>
    ensures front { OnOk result (IsInFrontAt x.now cell names.old.items names.new.items) }
    ensures memory { IfErr result (λ fault. fault ≡ Memory) }
{
    let alloc = *names.allocator();
    let named = Named {
        name: x.name.clone()?,
        shape: copy_shape(alloc, &x.shape)?,
        seat: Seat::Cell(cell),
    };
    names.insert(0, named)?;
    Ok(())
}
