//! The outputs of an action as code.

ghost use Rattle.std.specs.Prelude.{◌≡◌, ◌+◌, ◌≤◌, ◌^◌, IfErr, IfOk, OnOk, None, Some, length};
ghost use Rattle.cal_ast.specs.View.{expr_tree};
ghost use Rattle.cal_model.specs.Sound.{Each, max_rate};
ghost use Rattle.cal_model.specs.View.{shape_view};
ghost use Rattle.lower_base.specs.declared.fault.LowerFault.TheVariants.{TooManyCells};
ghost use Rattle.lower_base.specs.Words.{IsFaultWith, IsWholeWith};
ghost use Rattle.action_lower.specs.OutputWords.{AddsListOver, AddsListsOver, AddsOutputOver, AddsOutputsOver, AddsSentOver};
ghost use Rattle.action_lower.specs.OutputWords.{AddsValueOver, AddsValuesOver, AreWholeLists, AreWholeOutputs, AreWholeRepeated};
ghost use Rattle.action_lower.specs.OutputWords.{AreWholeValues, IsListFault, IsListsFault, IsOutputFault, IsOutputsFault};
ghost use Rattle.action_lower.specs.OutputWords.{IsRepeatedFault, IsValuesFault, IsWholeList, IsWholeOutput};
ghost use Rattle.action_lower.specs.Sending.{items_of_any};
ghost use Rattle.action_lower.specs.SendWords.{HasTaken};

use crate::seats::kind_on;
use crate::shapes::items_of_any;
use crate::turns::{put_turns, take_area};
use cal_ast::Expr;
use cal_model::{BoundOutput, Port, Shape};
use code_ir::Instr;
use expr_lower::{fill, fill_all, lower};
use lower_base::{Callee, Draft, LowerFault, Named, Scope, put};
use lower_stmt::take_list;
use rvc_base::Scalar;
use std::alloc::Global;

/// Appends the code of outputs, one after the other. The first cell of each comes back.
///
/// `names` holds the names that the outputs use, and `callees` the functions that they may call; the first of several
/// that are the same is meant. An output takes as many cells more as it sends tokens. The code leaves there what the
/// output sends, each token stored in the type of the output's port, and changes no cell that there was. What stood in
/// the draft stays.
///
/// # Errors
///
/// `NotLowered` with the offset of the first part for which no code is made: such a part of a value, as
/// [`lower_calling`](lower_base::lower_calling) or, of a list that is repeated, [`lower_list`](lower_base::lower_list)
/// says. `TooLong` if the draft has 2 to the power of 32 instructions. `TooManyCells` if it has so many cells that those
/// of an output don't fit. `Memory` if memory runs out.
pub fn lower_outputs(
    alloc: Global,
    names: &[Named],
    callees: &[Callee],
    ports: &[Port],
    outputs: &[BoundOutput],
    draft: &mut Draft,
) -> Result<Vec<u32>, LowerFault>
    requires few { Each (λ o. length o.values.items ≤ max_rate) outputs.now }
    ensures code { IfOk result (λ firsts.
        AddsOutputsOver callees.now names.now ports.now outputs.now firsts.items draft.old
        draft.new) }
    ensures sent { IfOk result (λ firsts.
        AddsSentOver callees.now names.now ports.now outputs.now firsts.items draft.old
        draft.new) }
    ensures whole { OnOk result (AreWholeOutputs callees.now names.now outputs.now) }
    ensures fault { IfErr result (IsOutputsFault callees.now names.now outputs.now draft.new) }
{
    let mut firsts = Vec::new(alloc);
    for output in outputs {
        let first = put_output(alloc, names, callees, ports, output, draft)?;
        firsts.push(first)?;
    }
    Ok(firsts)
}

/// Appends the code of an output. Its first cell comes back.
fn put_output(
    alloc: Global,
    names: &[Named],
    callees: &[Callee],
    ports: &[Port],
    output: &BoundOutput,
    draft: &mut Draft,
) -> Result<u32, LowerFault>
    requires few { length output.now.values.items ≤ max_rate }
    ensures code { IfOk result (λ first.
        AddsOutputOver callees.now names.now ports.now output.now first draft.old draft.new) }
    ensures whole { OnOk result (IsWholeOutput callees.now names.now output.now) }
    ensures fault { IfErr result (IsOutputFault callees.now names.now output.now draft.new) }
{
    match output.repeat {
        Some(times) => put_repeated(alloc, names, callees, ports, output, times, draft),
        None => put_once(names, callees, ports, output, draft),
    }
}

/// Appends the code of an output of single values. Its first cell comes back.
fn put_once(
    names: &[Named],
    callees: &[Callee],
    ports: &[Port],
    output: &BoundOutput,
    draft: &mut Draft,
) -> Result<u32, LowerFault>
    requires once { output.now.repeat ≡ None }
    requires few { length output.now.values.items ≤ max_rate }
    ensures code { IfOk result (λ first.
        AddsOutputOver callees.now names.now ports.now output.now first draft.old draft.new) }
    ensures whole { OnOk result (IsWholeOutput callees.now names.now output.now) }
    ensures fault { IfErr result (IsOutputFault callees.now names.now output.now draft.new) }
{
    let first = take_cells(output.values.len(), draft)?;
    let kind = kind_on(ports, output.port);
    put_values(names, callees, &output.values, first, kind, draft)?;
    Ok(first)
}

/// Appends the code of a repeated output. Its first cell comes back.
fn put_repeated(
    alloc: Global,
    names: &[Named],
    callees: &[Callee],
    ports: &[Port],
    output: &BoundOutput,
    times: u32,
    draft: &mut Draft,
) -> Result<u32, LowerFault>
    requires repeated { output.now.repeat ≡ Some times }
    ensures code { IfOk result (λ first.
        AddsOutputOver callees.now names.now ports.now output.now first draft.old draft.new) }
    ensures whole { OnOk result
        (AreWholeRepeated callees.now names.now times output.now.values.items) }
    ensures fault { IfErr result
        (IsRepeatedFault callees.now names.now times output.now.values.items draft.new) }
{
    let kind = kind_on(ports, output.port);
    let shape = items_of_any(alloc, times)?;
    match output.values.as_slice() {
        [] => Ok(draft.cells),
        [value] => put_list(names, callees, value, &shape, kind, draft),
        values => put_lists(names, callees, values, &shape, times, kind, draft),
    }
}

/// Takes cells for lists and for what they send, and appends the code that fills the lists and then stores their items in
/// a type, so that the lists take turns. The first cell of what is sent comes back.
fn put_lists(
    names: &[Named],
    callees: &[Callee],
    values: &[Expr],
    shape: &Shape,
    times: u32,
    kind: Scalar,
    draft: &mut Draft,
) -> Result<u32, LowerFault>
    requires some { 1 ≤ length values.now }
    requires shape { shape_view shape.now ≡ items_of_any times }
    ensures code { IfOk result (λ first.
        AddsListsOver callees.now names.now kind times values.now first draft.old draft.new) }
    ensures whole { OnOk result (AreWholeLists callees.now names.now shape.now values.now) }
    ensures fault { IfErr result (IsListsFault callees.now names.now shape.now values.now draft.new) }
{
    let area = take_area(values.len(), shape, draft)?;
    fill_all(
        &Scope::outermost(names, callees),
        values,
        shape,
        area.each,
        area.rows,
        draft,
    )?;
    put_turns(kind, area, times, area.tokens, area.rows, draft)?;
    Ok(area.tokens)
}

/// Takes cells for a list, and appends the code that fills them and stores each item in a type. The first cell comes
/// back.
fn put_list(
    names: &[Named],
    callees: &[Callee],
    value: &Expr,
    shape: &Shape,
    kind: Scalar,
    draft: &mut Draft,
) -> Result<u32, LowerFault>
    ensures code { IfOk result (λ first.
        AddsListOver callees.now names.now value.now shape.now kind first draft.old draft.new) }
    ensures whole { OnOk result (IsWholeList callees.now names.now shape.now value.now) }
    ensures fault { IfErr result (IsListFault callees.now names.now shape.now value.now draft.new) }
{
    let row = take_list(shape, draft)?;
    fill(
        &Scope::outermost(names, callees),
        value,
        shape,
        row.first,
        draft,
    )?;
    put(
        draft,
        Instr::Copy(row.first, row.first, row.size, Some(kind)),
    )?;
    Ok(row.first)
}

/// Takes cells more. The first of them comes back.
fn take_cells(count: usize, draft: &mut Draft) -> Result<u32, LowerFault>
    requires { count ≤ max_rate }
    ensures taken { IfOk result (λ first. HasTaken count first draft.old draft.new) }
    ensures fault { IfErr result
        (λ fault. (fault ≡ TooManyCells) × (2 ^ 32 ≤ draft.new.cells + max_rate)) }
{
    let first = draft.cells;
    let Some(after) = first.checked_add(count as u32) else {
        return Err(LowerFault::TooManyCells);
    };
    draft.cells = after;
    Ok(first)
}

/// Appends the code of values, each of which goes into the next cell.
fn put_values(
    names: &[Named],
    callees: &[Callee],
    values: &[Expr],
    cell: u32,
    kind: Scalar,
    draft: &mut Draft,
) -> Result<(), LowerFault>
    requires room { cell + length values.now ≤ draft.old.cells }
    ensures code { OnOk result
        (AddsValuesOver callees.now names.now kind values.now cell draft.old draft.new) }
    ensures whole { OnOk result (AreWholeValues callees.now names.now values.now) }
    ensures fault { IfErr result (IsValuesFault callees.now names.now values.now draft.new) }
{
    // it tells that the numbers of the cells fit
    let _cells = draft.cells;
    let mut at = cell;
    for value in values {
        put_value(names, callees, value, at, kind, draft)?;
        at += 1;
    }
    Ok(())
}

/// Appends the code of a value, and the store into its cell.
fn put_value(
    names: &[Named],
    callees: &[Callee],
    value: &Expr,
    cell: u32,
    kind: Scalar,
    draft: &mut Draft,
) -> Result<(), LowerFault>
    ensures code { OnOk result
        (AddsValueOver callees.now names.now kind value.now cell draft.old draft.new) }
    ensures whole { OnOk result (IsWholeWith callees.now names.now (expr_tree value.now)) }
    ensures fault { IfErr result
        (IsFaultWith callees.now names.now (expr_tree value.now) draft.new) }
{
    lower(&Scope::outermost(names, callees), value, draft)?;
    put(draft, Instr::Store(cell, Some(kind)))
}
