//! Assignments to parts of lists.

ghost use Rattle.std.specs.Prelude.{◌≡◌, ◌+◌, ◌<◌, ◌^◌, length};
ghost use Rattle.std.specs.Prelude.{IfErr, None, OnOk, Some, string_bytes};
ghost use Rattle.cal_ast.specs.View.{expr_tree};
ghost use Rattle.cal_model.specs.View.{shape_view};
ghost use Rattle.lower_base.specs.declared.fault.LowerFault.TheVariants.{Memory};
ghost use Rattle.lower_base.specs.Growing.{IsFault};
ghost use Rattle.lower_base.specs.Lowered.{IsPut};
ghost use Rattle.lower_base.specs.PartView.{places_of};
ghost use Rattle.lower_stmt.specs.SeenStmts.{AddsKept, AddsStmt, IsTarget};
ghost use Rattle.lower_stmt.specs.SeenStmts.{left_out_item, left_out_kept, put_code};
ghost use Rattle.lower_stmt.specs.Stating.{step_code};
ghost use Rattle.lower_stmt.specs.StmtSeen.{seen};
ghost use Rattle.lower_stmt.specs.StmtWords.{set_of};
ghost use Rattle.lower_stmt.specs.Targets.{source_of};

use crate::counter::take_row;
use crate::scope::StmtScope;
use crate::targets::{Target, source_of, target_of};
use cal_ast::{Expr, Ident};
use cal_model::Shape;
use code_ir::Instr;
use expr_lower::{fill, lower};
use lower_base::{Draft, LowerFault, put, put_all, scalars};

/// Appends an assignment to a part of a list, be it a single value or a list.
pub(crate) fn set_part(
    scope: &StmtScope,
    name: &Ident,
    places: &[Expr],
    value: &Expr,
    at: u32,
    draft: &mut Draft,
) -> Result<(), LowerFault>
    ensures ok { OnOk result
        (AddsStmt scope.now (set_of name.now places.now value.now at) draft.old draft.new) }
    ensures whole { OnOk result
        (left_out_item scope.now name.now places.now value.now at ≡ None) }
    ensures fault { IfErr result
        (IsFault (left_out_item scope.now name.now places.now value.now at) draft.new) }
{
    let Some(target) = target_of(&scope.values, name.text.as_str(), places) else {
        return Err(LowerFault::NotLowered { at });
    };
    match source_of(&scope.values, target.part, value) {
        Some(from) => copy_part(scope, name, places, value, target, from, at, draft),
        None => fill_part(scope, name, places, value, target, at, draft),
    }
}

/// Appends the assignment of a list that stands in cells from one on: the places, each of which is kept, their tests, and
/// the instruction that stores the list.
fn copy_part(
    scope: &StmtScope,
    name: &Ident,
    places: &[Expr],
    value: &Expr,
    target: Target,
    from: u32,
    at: u32,
    draft: &mut Draft,
) -> Result<(), LowerFault>
    requires target { IsTarget (seen scope.now) (string_bytes name.now.text) (places_of places.now) target }
    requires source { source_of (seen scope.now) (shape_view target.part.now) (expr_tree value.now) ≡ Some from }
    ensures ok { OnOk result
        (AddsStmt scope.now (set_of name.now places.now value.now at) draft.old draft.new) }
    ensures whole { OnOk result
        (left_out_item scope.now name.now places.now value.now at ≡ None) }
    ensures fault { IfErr result
        (IsFault (left_out_item scope.now name.now places.now value.now at) draft.new) }
{
    let cell = take_row(places.len(), draft)?;
    keep(scope, places, cell, draft)?;
    put_part(target, places, cell, from, draft)
}

/// Appends the assignment of any other value: the places, each of which is kept, the value, which is filled apart, since it
/// may read what it replaces, the tests of the places, and the instruction that stores the value.
fn fill_part(
    scope: &StmtScope,
    name: &Ident,
    places: &[Expr],
    value: &Expr,
    target: Target,
    at: u32,
    draft: &mut Draft,
) -> Result<(), LowerFault>
    requires target { IsTarget (seen scope.now) (string_bytes name.now.text) (places_of places.now) target }
    ensures ok { OnOk result
        (AddsStmt scope.now (set_of name.now places.now value.now at) draft.old draft.new) }
    ensures whole { OnOk result
        (left_out_item scope.now name.now places.now value.now at ≡ None) }
    ensures fault { IfErr result
        (IsFault (left_out_item scope.now name.now places.now value.now at) draft.new) }
{
    let cell = take_row(places.len(), draft)?;
    let from = take_row(target.size as usize, draft)?;
    keep(scope, places, cell, draft)?;
    fill(&scope.values, value, target.part, from, draft)?;
    put_part(target, places, cell, from, draft)
}

/// Appends the tests of places that are kept in cells, and the instruction that stores what stands in cells from one on.
fn put_part(
    target: Target,
    places: &[Expr],
    cell: u32,
    from: u32,
    draft: &mut Draft,
) -> Result<(), LowerFault>
    requires room { cell + length places.now < 2 ^ 32 }
    ensures added { OnOk result
        (IsPut (put_code target.entry (places_of places.now) cell from) draft.old draft.new) }
    ensures memory { IfErr result (λ fault. fault ≡ Memory) }
{
    put(draft, Instr::Const(0))?;
    put_steps(target.list, places, cell, draft)?;
    let to = target.to;
    put(
        draft,
        Instr::CopyTo(to.cell, to.size, from, target.size, Some(to.kind)),
    )
}

/// Appends places, each of which is kept in a cell, from this one on.
pub(crate) fn keep(
    scope: &StmtScope,
    places: &[Expr],
    cell: u32,
    draft: &mut Draft,
) -> Result<(), LowerFault>
    requires room { cell + length places.now < 2 ^ 32 }
    ensures ok { OnOk result (AddsKept scope.now cell places.now draft.old draft.new) }
    ensures whole { OnOk result (left_out_kept scope.now places.now ≡ None) }
    ensures fault { IfErr result (IsFault (left_out_kept scope.now places.now) draft.new) }
{
    let Some((first, rest)) = places.split_first() else {
        return Ok(());
    };
    lower(&scope.values, first, draft)?;
    put(draft, Instr::Store(cell, None))?;
    keep(scope, rest, cell + 1, draft)
}

/// Appends the tests of places that are kept in cells, each of which adds to the offset of the part.
fn put_steps(shape: &Shape, places: &[Expr], cell: u32, draft: &mut Draft) -> Result<(), LowerFault>
    requires room { cell + length places.now < 2 ^ 32 }
    ensures added { OnOk result
        (IsPut (step_code cell (shape_view shape.now) (places_of places.now)) draft.old draft.new) }
    ensures memory { IfErr result (λ fault. fault ≡ Memory) }
{
    let Some((_, rest)) = places.split_first() else {
        return Ok(());
    };
    match shape {
        Shape::Scalar(_) => Ok(()),
        Shape::List(count, items) => {
            let Some(each) = scalars(items) else {
                return Ok(());
            };
            put_all(draft, &[Instr::Load(cell), Instr::Index(*count, each)])?;
            put_steps(items, rest, cell + 1, draft)
        }
    }
}
