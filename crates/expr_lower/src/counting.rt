//! Code that counts the elements of comprehensions.

ghost use Rattle.std.specs.Prelude.{◌≡◌, ◌+◌, ◌*◌, ◌<◌, ◌^◌, ℕ, Option, length, IfErr, OnOk};
ghost use Rattle.lower_base.specs.declared.fault.LowerFault.TheVariants.{Memory};
ghost use Rattle.lower_base.specs.Growing.{IsFault};
ghost use Rattle.lower_base.specs.Lowered.{IsPut};
ghost use Rattle.expr_lower.specs.CounterView.{counter_view, gens_of};
ghost use Rattle.expr_lower.specs.Filling.{at_first, filled_more, set_number};
ghost use Rattle.expr_lower.specs.GoingOn.{GoesOn};

use crate::generators::{Counter, counted_by};
use cal_ast::Gen;
use code_ir::Instr;
use lower_base::{Draft, LowerFault, close, next_place, put, put_all};
use rvc_base::Num;

/// Appends the instructions that put the number on the stack into the cells of a generator.
fn put_number(k: u32, x: Counter, draft: &mut Draft) -> Result<(), LowerFault>
    requires room { k + 1 < 2 ^ 32 }
    ensures added { OnOk result (IsPut (set_number k (counter_view x.entry)) draft.old draft.new) }
    ensures memory { IfErr result (λ fault. fault ≡ Memory) }
{
    put_all(
        draft,
        &[
            Instr::Store(k, None),
            Instr::Load(k),
            Instr::Store(k + 1, Some(x.kind)),
        ],
    )
}

/// Appends the instructions that put generators at their first numbers, in the cells from this one on.
pub(crate) fn put_first(gens: &[Gen], k: u32, draft: &mut Draft) -> Result<(), LowerFault>
    requires room { k + 2 * length gens.now < 2 ^ 32 }
    ensures added { OnOk result (IsPut (at_first k (gens_of gens.now)) draft.old draft.new) }
    ensures memory { IfErr result (λ fault. fault ≡ Memory) }
{
    let Some((first, rest)) = gens.split_first() else {
        return Ok(());
    };
    let Some(x) = counted_by(first) else {
        return Ok(());
    };
    put(draft, Instr::Const(x.low))?;
    put_number(k, x, draft)?;
    put_first(rest, k + 2, draft)
}

/// Appends the instructions that count so many cells more as filled.
pub(crate) fn put_more(filled: u32, each: u32, draft: &mut Draft) -> Result<(), LowerFault>
    ensures added { OnOk result (IsPut (filled_more filled each) draft.old draft.new) }
    ensures memory { IfErr result (λ fault. fault ≡ Memory) }
{
    put_all(
        draft,
        &[
            Instr::Load(filled),
            Instr::Const(Num::from(each)),
            Instr::Add,
            Instr::Store(filled, None),
        ],
    )
}

/// Appends what comes behind an element: it leads to the next number of a generator, and on behind the last one.
pub(crate) fn put_next(
    k: u32,
    x: Counter,
    rest: &[Gen],
    turn: u32,
    draft: &mut Draft,
) -> Result<(), LowerFault>
    requires room { k + 2 + 2 * length rest.now < 2 ^ 32 }
    ensures added { OnOk result
        (GoesOn k (counter_view x.entry) (gens_of rest.now) turn draft.old draft.new) }
    ensures fault { (left : Option ℕ) → IfErr result (IsFault left draft.new) }
{
    put_all(draft, &[Instr::Load(k), Instr::Const(x.high), Instr::Lt])?;
    let skip = draft.instrs.len();
    put_all(
        draft,
        &[Instr::Done, Instr::Load(k), Instr::Const(1), Instr::Add],
    )?;
    put_number(k, x, draft)?;
    put_first(rest, k + 2, draft)?;
    put(draft, Instr::Jump(turn))?;
    let out = next_place(draft)?;
    close(draft, skip, skip + 1, out);
    Ok(())
}
