//! Cells that are taken.

ghost use Rattle.std.specs.Prelude.{◌≡◌, ◌+◌, ◌*◌, ◌<◌, ◌^◌, ◌≤◌, IfErr, IfOk, IfSome};
ghost use Rattle.lower_base.specs.declared.fault.LowerFault.TheVariants.{TooManyCells};
ghost use Rattle.expr_lower.specs.Reserving.{HasMore, one_at_least};

use lower_base::{Draft, LowerFault};

/// Says that 32 bits hold how many cells there are.
pub(crate) fn fitting(_cells: u32)
    ensures { _cells < 2 ^ 32 }
{}

/// Takes so many cells. If there aren't so many left, all are taken.
pub(crate) fn take_row(count: u32, draft: &mut Draft) -> Result<u32, LowerFault>
    ensures taken { IfOk result (HasMore count draft.old draft.new) }
    ensures fault { IfErr result
        (λ fault. (fault ≡ TooManyCells) × (2 ^ 32 ≤ draft.new.cells + 3)) }
{
    let first = draft.cells;
    let Some(after) = first.checked_add(count) else {
        draft.cells = u32::MAX;
        return Err(LowerFault::TooManyCells);
    };
    draft.cells = after;
    Ok(first)
}

/// A number, or 1 in place of 0.
pub(crate) fn one_at_least(count: u32) -> u32
    ensures { result ≡ one_at_least count }
{
    if count == 0 { 1 } else { count }
}

/// Takes a cell for what is filled, and two for each of so many generators. If there aren't so many left, all are
/// taken.
pub(crate) fn take_counters(gens: usize, draft: &mut Draft) -> Result<u32, LowerFault>
    ensures taken { IfOk result (HasMore (1 + 2 * gens) draft.old draft.new) }
    ensures fault { IfErr result
        (λ fault. (fault ≡ TooManyCells) × (2 ^ 32 ≤ draft.new.cells + 3)) }
{
    let Some(count) = counters(gens) else {
        draft.cells = u32::MAX;
        return Err(LowerFault::TooManyCells);
    };
    take_row(count, draft)
}

/// How many cells so many generators take, if 32 bits hold that.
fn counters(gens: usize) -> Option<u32>
    ensures { IfSome result (λ count. count ≡ 1 + 2 * gens) }
{
    let Ok(gens) = u32::try_from(gens) else {
        return None;
    };
    let numbers = gens.checked_mul(2)?;
    numbers.checked_add(1)
}
