//! Lists that are stored whole.

ghost use Rattle.std.specs.Prelude.{◌≡◌, IfErr, None, OnOk, Some, string_bytes};
ghost use Rattle.cal_ast.specs.View.{expr_tree};
ghost use Rattle.lower_base.specs.declared.fault.LowerFault.TheVariants.{Memory};
ghost use Rattle.lower_base.specs.Growing.{IsFault};
ghost use Rattle.lower_base.specs.Listed.{list_named};
ghost use Rattle.lower_base.specs.Lowered.{IsPut};
ghost use Rattle.lower_base.specs.PartView.{places_of};
ghost use Rattle.lower_stmt.specs.StmtSeen.{called, seen};
ghost use Rattle.lower_stmt.specs.SeenStmts.{AddsItems, AddsStmt};
ghost use Rattle.lower_stmt.specs.Stating.{copy_code};
ghost use Rattle.lower_stmt.specs.Targets.{cells_named};
ghost use Rattle.lower_stmt.specs.StmtGrowing.{left_out_copy, left_out_filled, left_out_items};
ghost use Rattle.lower_stmt.specs.StmtWords.{set_one_of};

use crate::counter::take_row;
use crate::deep::keep;
use crate::scope::StmtScope;
use crate::targets::{ListCells, source_of, whole_cells};
use cal_ast::{Expr, Ident};
use code_ir::Instr;
use expr_lower::fill;
use lower_base::{Draft, LowerFault, Seat, list_named, put, put_all, whole_called};

/// Appends an assignment of the list that an expression names to another one of the same size.
pub(crate) fn set_copy(
    scope: &StmtScope,
    name: &Ident,
    to: ListCells,
    value: &Expr,
    at: u32,
    draft: &mut Draft,
) -> Result<(), LowerFault>
    requires cells { cells_named (seen scope.now) (string_bytes name.now.text) ≡ Some to }
    ensures ok { OnOk result
        (AddsStmt scope.now (set_one_of name.now value.now at) draft.old draft.new) }
    ensures whole { OnOk result
        (left_out_copy to (list_named (seen scope.now) (expr_tree value.now)) at ≡ None) }
    ensures fault { IfErr result
        (IsFault (left_out_copy to (list_named (seen scope.now) (expr_tree value.now)) at) draft.new) }
{
    let Some(from) = list_named(&scope.values, value) else {
        return Err(LowerFault::NotLowered { at });
    };
    if from.size != to.size {
        return Err(LowerFault::NotLowered { at });
    }
    copy(to, from.seat, draft)
}

/// Appends an assignment of items that are written out: each of them, kept in a cell, and then the instruction that
/// stores them, since they may read what the list held.
pub(crate) fn set_items(
    scope: &StmtScope,
    name: &Ident,
    to: ListCells,
    items: &[Expr],
    at: u32,
    draft: &mut Draft,
) -> Result<(), LowerFault>
    requires cells { cells_named (seen scope.now) (string_bytes name.now.text) ≡ Some to }
    ensures ok { OnOk result (AddsItems scope.now name.now items.now draft.old draft.new) }
    ensures whole { OnOk result
        (left_out_items (called scope.now).functions (seen scope.now) to (places_of items.now) at ≡ None) }
    ensures fault { IfErr result
        (IsFault (left_out_items (called scope.now).functions (seen scope.now) to (places_of items.now) at) draft.new) }
{
    if items.len() != to.size as usize {
        return Err(LowerFault::NotLowered { at });
    }
    let first = take_row(items.len(), draft)?;
    keep(scope, items, first, draft)?;
    copy(to, Seat::Cell(first), draft)
}

/// Appends an assignment of any other list, at any depth. That of a name is stored from where it stands; any other one
/// is filled apart, since it may read what the variable held, and then stored.
pub(crate) fn set_filled(
    scope: &StmtScope,
    name: &Ident,
    value: &Expr,
    at: u32,
    draft: &mut Draft,
) -> Result<(), LowerFault>
    ensures ok { OnOk result
        (AddsStmt scope.now (set_one_of name.now value.now at) draft.old draft.new) }
    ensures whole { OnOk result (left_out_filled (called scope.now).functions (seen scope.now)
        (string_bytes name.now.text) (expr_tree value.now) at ≡ None) }
    ensures fault { IfErr result (IsFault (left_out_filled (called scope.now).functions (seen scope.now)
        (string_bytes name.now.text) (expr_tree value.now) at) draft.new) }
{
    let Some(whole) = whole_called(&scope.values, name.text.as_str()) else {
        return Err(LowerFault::NotLowered { at });
    };
    let Some(to) = whole_cells(whole) else {
        return Err(LowerFault::NotLowered { at });
    };
    if let Some(from) = source_of(&scope.values, whole.shape, value) {
        return put(draft, Instr::Copy(to.cell, from, to.size, Some(to.kind)));
    }
    let first = take_row(to.size as usize, draft)?;
    fill(&scope.values, value, whole.shape, first, draft)?;
    put(draft, Instr::Copy(to.cell, first, to.size, Some(to.kind)))
}

/// Appends the instructions that store the items of a list in those of another one.
fn copy(to: ListCells, from: Seat, draft: &mut Draft) -> Result<(), LowerFault>
    ensures added { OnOk result
        (IsPut (copy_code to.cell to.size to.kind from) draft.old draft.new) }
    ensures memory { IfErr result (λ fault. fault ≡ Memory) }
{
    match from {
        Seat::Cell(source) => put(draft, Instr::Copy(to.cell, source, to.size, Some(to.kind))),
        Seat::Tokens { port, first, step } => put_all(
            draft,
            &[
                Instr::TokenList(to.cell, port, first, step, to.size),
                Instr::Copy(to.cell, to.cell, to.size, Some(to.kind)),
            ],
        ),
    }
}
