//! Lists that are sent in turn.

ghost use Rattle.std.specs.Prelude.{◌≡◌, ◌+◌, ◌*◌, ◌<◌, ◌≤◌, ◌^◌, IfErr, IfOk, IfSome, OnOk};
ghost use Rattle.cal_model.specs.View.{shape_view};
ghost use Rattle.lower_base.specs.declared.fault.LowerFault.TheVariants.{Memory, TooManyCells};
ghost use Rattle.lower_base.specs.Lowered.{IsPut};
ghost use Rattle.action_lower.specs.Sending.{item_stores, turn_stores};
ghost use Rattle.action_lower.specs.SendWords.{HasArea, IsArea};

use cal_model::Shape;
use code_ir::Instr;
use lower_base::{Draft, LowerFault, put, scalars};
use rvc_base::Scalar;

/// The cells of what lists send, those of the lists behind them, one list behind the other, the cell behind all of these,
/// and how many lists there are and how many numbers each of them has.
#[derive(Clone, Copy)]
pub(crate) struct Area {
    pub tokens: u32,
    pub rows: u32,
    pub end: u32,
    pub lists: u32,
    pub each: u32,
}

/// Takes cells for so many lists of a type, and as many for what they send. If there aren't so many left, all are taken.
pub(crate) fn take_area(count: usize, shape: &Shape, draft: &mut Draft) -> Result<Area, LowerFault>
    ensures taken { IfOk result (HasArea count (shape_view shape.now) draft.old draft.new) }
    ensures fault { IfErr result
        (λ fault. (fault ≡ TooManyCells) × (2 ^ 32 ≤ draft.new.cells + 3)) }
{
    let Some(area) = area_at(draft.cells, count, shape) else {
        draft.cells = u32::MAX;
        return Err(LowerFault::TooManyCells);
    };
    draft.cells = area.end;
    Ok(area)
}

/// The cells from one on for so many lists of a type and what they send, if their numbers fit.
fn area_at(first: u32, count: usize, shape: &Shape) -> Option<Area>
    ensures { IfSome result (IsArea first count (shape_view shape.now)) }
{
    let each = scalars(shape)?;
    let Ok(lists) = u32::try_from(count) else {
        return None;
    };
    let all = lists.checked_mul(each)?;
    let rows = first.checked_add(all)?;
    let end = rows.checked_add(all)?;
    Some(Area {
        tokens: first,
        rows,
        end,
        lists,
        each,
    })
}

/// Appends the instructions that put so many items of each of some lists into the cells from `to` on, so that the lists
/// take turns. The next item of the first list stands in the cell `from`.
pub(crate) fn put_turns(
    kind: Scalar,
    area: Area,
    count: u32,
    to: u32,
    from: u32,
    draft: &mut Draft,
) -> Result<(), LowerFault>
    requires some { 1 ≤ area.lists }
    requires to { to + count * area.lists < 2 ^ 32 }
    requires from { from + area.lists * area.each + count < 2 ^ 32 + area.each }
    ensures added { OnOk result
        (IsPut (turn_stores kind area.each area.lists count to from) draft.old draft.new) }
    ensures memory { IfErr result (λ fault. fault ≡ Memory) }
{
    if count == 0 {
        return Ok(());
    }
    put_items(kind, area.each, area.lists, to, from, draft)?;
    put_turns(kind, area, count - 1, to + area.lists, from + 1, draft)
}

/// Appends the instructions that put one item of each of so many lists into the cells from `to` on.
fn put_items(
    kind: Scalar,
    each: u32,
    lists: u32,
    to: u32,
    from: u32,
    draft: &mut Draft,
) -> Result<(), LowerFault>
    requires to { to + lists < 2 ^ 32 }
    requires from { from + lists * each < 2 ^ 32 + each }
    ensures added { OnOk result
        (IsPut (item_stores kind each lists to from) draft.old draft.new) }
    ensures memory { IfErr result (λ fault. fault ≡ Memory) }
{
    if lists == 0 {
        return Ok(());
    }
    put(draft, Instr::Copy(to, from, 1, Some(kind)))?;
    if lists == 1 {
        return Ok(());
    }
    put_items(kind, each, lists - 1, to + 1, from + each, draft)
}
