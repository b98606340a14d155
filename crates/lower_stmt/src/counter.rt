//! The cells of a `foreach`, and the parts of its code that are the same for every body.

ghost use Rattle.std.specs.Prelude.{◌≡◌, ◌∷◌, [], ◌+◌, ◌<◌, ◌^◌, ◌≤◌, IfErr, IfOk, IfSome, OnOk};
ghost use Rattle.cal_ast.specs.View.{expr_tree, type_tree};
ghost use Rattle.code_ir.specs.declared.instr.Instr.TheVariants as op;
ghost use Rattle.lower_base.specs.declared.fault.LowerFault.TheVariants.{Memory, TooManyCells};
ghost use Rattle.lower_base.specs.Lowered.{IsPut};
ghost use Rattle.lower_stmt.specs.Stating.{count_first, count_next};
ghost use Rattle.lower_stmt.specs.Stating.{each_bounds, each_less, each_next, each_turn};
ghost use Rattle.lower_stmt.specs.Reserving.{HasMore, HasTaken};
ghost use Rattle.lower_stmt.specs.SeenStmts.{CountsSpan};

use cal_ast::{Expr, TypeExpr};
use code_ir::Instr;
use expr_lower::{bound_of, single_meant};
use lower_base::{Draft, LowerFault, put, put_all};
use rvc_base::{Num, Scalar, conv};

/// The cells of a `foreach`: the number at which it is, the last one, and its variable, which is stored in its type.
#[derive(Clone, Copy)]
pub(crate) struct Counter {
    pub number: u32,
    pub last: u32,
    pub variable: u32,
    pub kind: Scalar,
}

/// Takes three cells more.
pub(crate) fn take_cells(kind: Scalar, draft: &mut Draft) -> Result<Counter, LowerFault>
    ensures taken { IfOk result (HasTaken kind draft.old draft.new) }
    ensures fault { IfErr result
        (λ fault. (fault ≡ TooManyCells) × (2 ^ 32 ≤ draft.new.cells + 3)) }
{
    let number = draft.cells;
    let Some(after) = number.checked_add(3) else {
        return Err(LowerFault::TooManyCells);
    };
    draft.cells = after;
    Ok(Counter {
        number,
        last: number + 1,
        variable: number + 2,
        kind,
    })
}

/// Takes so many cells. If there aren't so many left, all are taken.
pub(crate) fn take_row(count: usize, draft: &mut Draft) -> Result<u32, LowerFault>
    ensures taken { IfOk result (HasMore count draft.old draft.new) }
    ensures fault { IfErr result
        (λ fault. (fault ≡ TooManyCells) × (2 ^ 32 ≤ draft.new.cells + 3)) }
{
    let first = draft.cells;
    let Some(after) = cell_after(first, count) else {
        draft.cells = u32::MAX;
        return Err(LowerFault::TooManyCells);
    };
    draft.cells = after;
    Ok(first)
}

/// The cell behind so many cells, unless no number is left for one behind it.
fn cell_after(cell: u32, count: usize) -> Option<u32>
    ensures { IfSome result (λ after. (after ≡ cell + count) × (after + 1 < 2 ^ 32)) }
{
    let Ok(count) = u32::try_from(count) else {
        return None;
    };
    let after = cell.checked_add(count)?;
    if after == u32::MAX {
        return None;
    }
    Some(after)
}

/// Appends the instructions that take the bounds from the stack, and compare them.
pub(crate) fn put_bounds(c: Counter, draft: &mut Draft) -> Result<(), LowerFault>
    ensures added { OnOk result (IsPut (each_bounds c) draft.old draft.new) }
    ensures memory { IfErr result (λ fault. fault ≡ Memory) }
{
    put_all(
        draft,
        &[
            Instr::Store(c.last, None),
            Instr::Store(c.number, None),
            Instr::Load(c.number),
            Instr::Load(c.last),
            Instr::Le,
        ],
    )
}

/// Appends a turn, and the instructions that put the number into the variable.
pub(crate) fn put_turn(c: Counter, draft: &mut Draft) -> Result<(), LowerFault>
    ensures added { OnOk result (IsPut (each_turn c) draft.old draft.new) }
    ensures memory { IfErr result (λ fault. fault ≡ Memory) }
{
    put_all(
        draft,
        &[
            Instr::Turn,
            Instr::Load(c.number),
            Instr::Store(c.variable, Some(c.kind)),
        ],
    )
}

/// Appends the instructions that say whether the number isn't the last one.
pub(crate) fn put_less(c: Counter, draft: &mut Draft) -> Result<(), LowerFault>
    ensures added { OnOk result (IsPut (each_less c) draft.old draft.new) }
    ensures memory { IfErr result (λ fault. fault ≡ Memory) }
{
    put_all(
        draft,
        &[Instr::Load(c.number), Instr::Load(c.last), Instr::Lt],
    )
}

/// Appends the instructions that go on to the next number, and back to the turn.
pub(crate) fn put_next(c: Counter, turn: u32, draft: &mut Draft) -> Result<(), LowerFault>
    ensures added { OnOk result (IsPut (each_next c turn) draft.old draft.new) }
    ensures memory { IfErr result (λ fault. fault ≡ Memory) }
{
    put_all(
        draft,
        &[
            Instr::Load(c.number),
            Instr::Const(1),
            Instr::Add,
            Instr::Store(c.number, None),
            Instr::Jump(turn),
        ],
    )
}

/// What a `foreach` counts in the cell of its variable: the numbers from one to another, which are of its type.
#[derive(Clone, Copy)]
pub(crate) struct Span {
    pub kind: Scalar,
    pub low: Num,
    pub high: Num,
}

/// The numbers of a `foreach` whose bounds are written out, if there is one and the type of its variable holds them.
pub(crate) fn span_of(shape: &TypeExpr, from: &Expr, to: &Expr) -> Option<Span>
    ensures counts { IfSome result
        (CountsSpan (type_tree shape.now) (expr_tree from.now) (expr_tree to.now)) }
{
    let kind = single_meant(shape)?;
    let low = bound_of(from)?;
    let high = bound_of(to)?;
    if high < low || conv(kind, low) != low || conv(kind, high) != high {
        return None;
    }
    Some(Span { kind, low, high })
}

/// Appends the instructions that put the first number into the variable.
pub(crate) fn put_first(cell: u32, low: Num, draft: &mut Draft) -> Result<(), LowerFault>
    ensures added { OnOk result (IsPut (count_first cell low) draft.old draft.new) }
    ensures memory { IfErr result (λ fault. fault ≡ Memory) }
{
    put_all(draft, &[Instr::Const(low), Instr::Store(cell, None)])
}

/// Appends a turn alone.
pub(crate) fn put_turn_alone(draft: &mut Draft) -> Result<(), LowerFault>
    ensures added { OnOk result (IsPut (op.Turn ∷ []) draft.old draft.new) }
    ensures memory { IfErr result (λ fault. fault ≡ Memory) }
{
    put(draft, Instr::Turn)
}

/// Appends the instructions that count, and jump back to the turn unless the last number is passed.
pub(crate) fn put_count(
    cell: u32,
    high: Num,
    turn: u32,
    draft: &mut Draft,
) -> Result<(), LowerFault>
    ensures added { OnOk result (IsPut (count_next cell high turn) draft.old draft.new) }
    ensures memory { IfErr result (λ fault. fault ≡ Memory) }
{
    put_all(
        draft,
        &[
            Instr::Load(cell),
            Instr::Const(1),
            Instr::Add,
            Instr::Store(cell, None),
            Instr::Load(cell),
            Instr::Const(high),
            Instr::Gt,
            Instr::JumpIfNot(turn),
        ],
    )
}
