//! Expressions of single values as code: one small function a form.

ghost use Rattle.std.specs.Prelude.{◌≡◌, ℕ, IfErr, None, OnOk};
ghost use Rattle.cal_ast.specs.Tree as tree;
ghost use Rattle.cal_ast.specs.View.{expr_tree};
ghost use Rattle.lower_base.specs.Growing.{IsFault};
ghost use Rattle.lower_base.specs.Held.{AreBelow};
ghost use Rattle.lower_base.specs.Listed.{list_named};
ghost use Rattle.lower_base.specs.Names.{names_view};
ghost use Rattle.lower_base.specs.Parted.{IsPart, deep_named};
ghost use Rattle.lower_base.specs.Seen.{called, seen};
ghost use Rattle.lower_base.specs.SeenWords.{AddsArgs, Applies, AreAllPlaces, IsAll, IsWhy, IsWhyPlaces, Lowers};
ghost use Rattle.lower_base.specs.SeenWords.{Offsets, Opens, first_left_out, left_out_of_args};
ghost use Rattle.lower_base.specs.Words.{AddsLowered, AddsLoweredWith, IsFaultOf, IsFaultWith, IsWhole, IsWholeWith};
ghost use Rattle.lower_base.specs.Words.{and_of, binary_of, call_of, if_of, index_of, or_of};

use crate::apart::{items_seen, list_type, one_type};
use crate::fixed::fixed_item;
use crate::indexes::Indexes;
use crate::lists::fill;
use crate::taking::{one_at_least, take_row};
use crate::truths::is_truth;
use cal_ast::{BinOp, Expr, ExprForm, PrefixOp};
use code_ir::Instr;
use lower_base::{
    Callee, Draft, LowerFault, Named, Scope, binary_instr, deep_item_named, function_for,
    item_instr, link, list_named, negative, next_place, number, prefix_instr, put, put_call,
    put_const, rows_named, scalars, truth, variable, whole_offset,
};

/// Appends code that evaluates an expression and pushes its value.
#[cycle(lower)]
pub fn lower(scope: &Scope, e: &Expr, draft: &mut Draft) -> Result<(), LowerFault>
    ensures ok { OnOk result (Lowers scope.now (expr_tree e.now) draft.old draft.new) }
    ensures whole { OnOk result (IsAll scope.now (expr_tree e.now)) }
    ensures fault { IfErr result (IsWhy scope.now (expr_tree e.now) draft.new) }
{
    match &e.form {
        ExprForm::Number(value) => number(*value, draft),
        ExprForm::Bool(value) => truth(*value, draft),
        ExprForm::Name(text) => variable(scope, text.as_str(), e.at, draft),
        ExprForm::Paren(inner) => paren(scope, inner, draft),
        ExprForm::If { test, yes, no } => choice(scope, test, yes, no, draft),
        ExprForm::Prefix { op, of } => operation(scope, *op, of, draft),
        ExprForm::Binary { op, left, right } => binary(scope, *op, left, right, e.at, draft),
        ExprForm::Call { name, args } => call(scope, name.as_str(), args, e.at, draft),
        ExprForm::List(_) => Err(LowerFault::NotLowered { at: e.at }),
        ExprForm::Comp { item: _, gens: _ } => Err(LowerFault::NotLowered { at: e.at }),
        ExprForm::Index { base, place } => item(scope, base, place, e.at, draft),
    }
}

/// Appends what stands in a pair of parentheses.
#[cycle(lower)]
fn paren(scope: &Scope, inner: &Expr, draft: &mut Draft) -> Result<(), LowerFault>
    ensures ok { (at : ℕ)
        → OnOk result (Lowers scope.now (tree.paren (expr_tree inner.now) at) draft.old draft.new) }
    ensures whole { OnOk result (IsAll scope.now (expr_tree inner.now)) }
    ensures fault { IfErr result (IsWhy scope.now (expr_tree inner.now) draft.new) }
{
    lower(scope, inner, draft)
}

/// Appends an item of a list, which one instruction reads if its places are written out and lie within the list.
#[cycle(lower)]
fn item(
    scope: &Scope,
    base: &Expr,
    place: &Expr,
    at: u32,
    draft: &mut Draft,
) -> Result<(), LowerFault>
    ensures ok { OnOk result
        (Lowers scope.now (index_of base.now place.now at) draft.old draft.new) }
    ensures whole { OnOk result (IsAll scope.now (index_of base.now place.now at)) }
    ensures fault { IfErr result (IsWhy scope.now (index_of base.now place.now at) draft.new) }
{
    match fixed_item(scope, base, place) {
        Some(instr) => put(draft, instr),
        None => any_item(scope, base, place, at, draft),
    }
}

/// Appends an item of a list: its place, and the instruction that reads it.
#[cycle(lower)]
fn any_item(
    scope: &Scope,
    base: &Expr,
    place: &Expr,
    at: u32,
    draft: &mut Draft,
) -> Result<(), LowerFault>
    ensures ok { OnOk result
        (Lowers scope.now (index_of base.now place.now at) draft.old draft.new) }
    ensures whole { OnOk result (IsAll scope.now (index_of base.now place.now at)) }
    ensures fault { IfErr result (IsWhy scope.now (index_of base.now place.now at) draft.new) }
{
    let Some(list) = list_named(scope, base) else {
        return deep_item(scope, base, place, at, draft);
    };
    lower(scope, place, draft)?;
    put(draft, item_instr(list))
}

/// Appends an item of a list in lists: its offset in the whole list, and the instruction that reads it.
#[cycle(lower)]
fn deep_item(
    scope: &Scope,
    base: &Expr,
    place: &Expr,
    at: u32,
    draft: &mut Draft,
) -> Result<(), LowerFault>
    requires not_one { list_named (seen scope.now) (expr_tree base.now) ≡ None }
    ensures ok { OnOk result
        (Lowers scope.now (index_of base.now place.now at) draft.old draft.new) }
    ensures whole { OnOk result (IsAll scope.now (index_of base.now place.now at)) }
    ensures fault { IfErr result (IsWhy scope.now (index_of base.now place.now at) draft.new) }
{
    let Some(list) = deep_item_named(scope, base) else {
        return apart_item(scope, base, place, at, draft);
    };
    row(scope, base, place, draft)?;
    put(draft, item_instr(list))
}

/// Appends an item of a list that is filled apart: the list, the place, and the instruction that reads the item. A list
/// without items takes a cell too, since code that uses none may not ask for any.
#[cycle(lower)]
fn apart_item(
    scope: &Scope,
    base: &Expr,
    place: &Expr,
    at: u32,
    draft: &mut Draft,
) -> Result<(), LowerFault>
    requires not_one { list_named (seen scope.now) (expr_tree base.now) ≡ None }
    requires not_part { deep_named (seen scope.now) (index_of base.now place.now at) ≡ None }
    ensures ok { OnOk result
        (Lowers scope.now (index_of base.now place.now at) draft.old draft.new) }
    ensures whole { OnOk result (IsAll scope.now (index_of base.now place.now at)) }
    ensures fault { IfErr result (IsWhy scope.now (index_of base.now place.now at) draft.new) }
{
    let Some(count) = items_seen(scope, base, &Indexes::None) else {
        return Err(LowerFault::NotLowered { at });
    };
    let list = list_type(*draft.instrs.allocator(), count, one_type())?;
    let Some(size) = scalars(&list) else {
        return Err(LowerFault::NotLowered { at });
    };
    let first = take_row(one_at_least(size), draft)?;
    fill(scope, base, &list, first, draft)?;
    lower(scope, place, draft)?;
    put(draft, Instr::LoadAt(first, size))
}

/// Appends the offset of an item: that of the list, the place, and the instruction that adds them.
#[cycle(lower)]
fn row(scope: &Scope, base: &Expr, place: &Expr, draft: &mut Draft) -> Result<(), LowerFault>
    requires part { IsPart (seen scope.now) (index_of base.now place.now 0) }
    ensures ok { (at : ℕ)
        → OnOk result (Offsets scope.now (index_of base.now place.now at) draft.old draft.new) }
    ensures whole { OnOk result (AreAllPlaces scope.now (index_of base.now place.now 0)) }
    ensures fault { IfErr result
        (IsWhyPlaces scope.now (index_of base.now place.now 0) draft.new) }
{
    let Some(rows) = rows_named(scope, base) else {
        unreachable!();
    };
    offset(scope, base, draft)?;
    lower(scope, place, draft)?;
    put(draft, Instr::Index(rows.count, rows.each))
}

/// Appends the offset of the part of a list that a chain of indexes gives.
#[cycle(lower)]
pub fn offset(scope: &Scope, e: &Expr, draft: &mut Draft) -> Result<(), LowerFault>
    requires part { IsPart (seen scope.now) (expr_tree e.now) }
    ensures ok { OnOk result (Offsets scope.now (expr_tree e.now) draft.old draft.new) }
    ensures whole { OnOk result (AreAllPlaces scope.now (expr_tree e.now)) }
    ensures fault { IfErr result (IsWhyPlaces scope.now (expr_tree e.now) draft.new) }
{
    match &e.form {
        ExprForm::Index { base, place } => row(scope, base, place, draft),
        ExprForm::Name(_) => whole_offset(draft),
        _ => unreachable!(),
    }
}

/// Appends an operation with one operand. A minus sign before a literal is one number with it.
#[cycle(lower)]
fn operation(scope: &Scope, op: PrefixOp, of: &Expr, draft: &mut Draft) -> Result<(), LowerFault>
    ensures ok { (at : ℕ)
        → OnOk result (Lowers scope.now (tree.prefix op (expr_tree of.now) at) draft.old draft.new) }
    ensures whole { OnOk result (IsAll scope.now (expr_tree of.now)) }
    ensures fault { IfErr result (IsWhy scope.now (expr_tree of.now) draft.new) }
{
    if let Some(value) = negative(op, of) {
        return put_const(draft, value);
    }
    lower(scope, of, draft)?;
    put(draft, prefix_instr(op))
}

/// Appends an operation with two operands.
#[cycle(lower)]
fn binary(
    scope: &Scope,
    op: BinOp,
    left: &Expr,
    right: &Expr,
    at: u32,
    draft: &mut Draft,
) -> Result<(), LowerFault>
    ensures ok { OnOk result
        (Lowers scope.now (binary_of op left.now right.now at) draft.old draft.new) }
    ensures whole { OnOk result (IsAll scope.now (binary_of op left.now right.now at)) }
    ensures fault { IfErr result
        (IsWhy scope.now (binary_of op left.now right.now at) draft.new) }
{
    match binary_instr(op) {
        Some(instr) => strict(scope, instr, left, right, draft),
        None => {
            if op == BinOp::Or {
                either(scope, left, right, at, draft)
            } else {
                both(scope, left, right, at, draft)
            }
        }
    }
}

/// Appends an operation whose operands are both evaluated.
#[cycle(lower)]
fn strict(
    scope: &Scope,
    instr: Instr,
    left: &Expr,
    right: &Expr,
    draft: &mut Draft,
) -> Result<(), LowerFault>
    ensures ok { OnOk result
        (Applies scope.now instr left.now right.now draft.old draft.new) }
    ensures whole { OnOk result (first_left_out scope.now left.now right.now ≡ None) }
    ensures fault { IfErr result (IsFault (first_left_out scope.now left.now right.now) draft.new) }
{
    lower(scope, left, draft)?;
    lower(scope, right, draft)?;
    put(draft, instr)
}

/// Appends an `and`, whose right side isn't evaluated if the left one is false.
#[cycle(lower)]
fn both(
    scope: &Scope,
    left: &Expr,
    right: &Expr,
    at: u32,
    draft: &mut Draft,
) -> Result<(), LowerFault>
    ensures ok { OnOk result (Lowers scope.now (and_of left.now right.now at) draft.old draft.new) }
    ensures whole { OnOk result (IsAll scope.now (and_of left.now right.now at)) }
    ensures fault { IfErr result (IsWhy scope.now (and_of left.now right.now at) draft.new) }
{
    if !is_truth(scope, left) {
        return Err(LowerFault::NotLowered { at });
    }
    let start = draft.instrs.len();
    lower_test(scope, left, draft)?;
    let exits = draft.instrs.len();
    lower(scope, right, draft)?;
    let jump = draft.instrs.len();
    put(draft, Instr::Jump(0))?;
    let out = next_place(draft)?;
    put(draft, Instr::Const(0))?;
    let end = next_place(draft)?;
    link(draft, start, exits, out, jump, end);
    Ok(())
}

/// Appends an `or`, whose right side isn't evaluated if the left one is true.
#[cycle(lower)]
fn either(
    scope: &Scope,
    left: &Expr,
    right: &Expr,
    at: u32,
    draft: &mut Draft,
) -> Result<(), LowerFault>
    ensures ok { OnOk result (Lowers scope.now (or_of left.now right.now at) draft.old draft.new) }
    ensures whole { OnOk result (IsAll scope.now (or_of left.now right.now at)) }
    ensures fault { IfErr result (IsWhy scope.now (or_of left.now right.now at) draft.new) }
{
    if !is_truth(scope, left) {
        return Err(LowerFault::NotLowered { at });
    }
    let start = draft.instrs.len();
    lower_test(scope, left, draft)?;
    let exits = draft.instrs.len();
    put(draft, Instr::Const(1))?;
    let jump = draft.instrs.len();
    put(draft, Instr::Jump(0))?;
    let out = next_place(draft)?;
    lower(scope, right, draft)?;
    let end = next_place(draft)?;
    link(draft, start, exits, out, jump, end);
    Ok(())
}

/// Appends an `if`: the condition, and a branch for each answer.
#[cycle(lower)]
fn choice(
    scope: &Scope,
    test: &Expr,
    yes: &Expr,
    no: &Expr,
    draft: &mut Draft,
) -> Result<(), LowerFault>
    ensures ok { (at : ℕ)
        → OnOk result (Lowers scope.now (if_of test.now yes.now no.now at) draft.old draft.new) }
    ensures whole { OnOk result (IsAll scope.now (if_of test.now yes.now no.now 0)) }
    ensures fault { IfErr result (IsWhy scope.now (if_of test.now yes.now no.now 0) draft.new) }
{
    let start = draft.instrs.len();
    lower_test(scope, test, draft)?;
    let exits = draft.instrs.len();
    lower(scope, yes, draft)?;
    let jump = draft.instrs.len();
    put(draft, Instr::Jump(0))?;
    let out = next_place(draft)?;
    lower(scope, no, draft)?;
    let end = next_place(draft)?;
    link(draft, start, exits, out, jump, end);
    Ok(())
}

// ---- calls

/// Appends a call: its arguments, a turn, and the instructions that put the arguments into the cells of the formals
/// and run the routine.
#[cycle(lower)]
fn call(
    scope: &Scope,
    name: &str,
    args: &[Expr],
    at: u32,
    draft: &mut Draft,
) -> Result<(), LowerFault>
    ensures ok { OnOk result (Lowers scope.now (call_of name.now args.now at) draft.old draft.new) }
    ensures whole { OnOk result (IsAll scope.now (call_of name.now args.now at)) }
    ensures fault { IfErr result (IsWhy scope.now (call_of name.now args.now at) draft.new) }
{
    let Some(callee) = function_for(scope.callees, name, args) else {
        return Err(LowerFault::NotLowered { at });
    };
    lower_args(scope, args, draft)?;
    put_call(callee, draft)
}

/// Appends arguments, one after the other.
#[cycle(lower)]
pub fn lower_args(scope: &Scope, args: &[Expr], draft: &mut Draft) -> Result<(), LowerFault>
    ensures ok { OnOk result (AddsArgs scope.now args.now draft.old draft.new) }
    ensures whole { OnOk result (left_out_of_args scope.now args.now ≡ None) }
    ensures fault { IfErr result (IsFault (left_out_of_args scope.now args.now) draft.new) }
{
    let Some((first, rest)) = args.split_first() else {
        return Ok(());
    };
    lower(scope, first, draft)?;
    lower_args(scope, rest, draft)
}

// ---- conditions

/// Appends a condition, which goes on if it is true. If it is false it is to jump elsewhere: `Done` stands for
/// these jumps, until their target is known.
#[cycle(lower)]
pub fn lower_test(scope: &Scope, e: &Expr, draft: &mut Draft) -> Result<(), LowerFault>
    ensures ok { OnOk result (Opens scope.now (expr_tree e.now) draft.old draft.new) }
    ensures whole { OnOk result (IsAll scope.now (expr_tree e.now)) }
    ensures fault { IfErr result (IsWhy scope.now (expr_tree e.now) draft.new) }
{
    match &e.form {
        ExprForm::Binary {
            op: BinOp::And,
            left,
            right,
        } => test_both(scope, left, right, e.at, draft),
        _ => test_value(scope, e, draft),
    }
}

/// Appends two conditions that must both be true.
#[cycle(lower)]
fn test_both(
    scope: &Scope,
    left: &Expr,
    right: &Expr,
    at: u32,
    draft: &mut Draft,
) -> Result<(), LowerFault>
    ensures ok { OnOk result (Opens scope.now (and_of left.now right.now at) draft.old draft.new) }
    ensures whole { OnOk result (IsAll scope.now (and_of left.now right.now at)) }
    ensures fault { IfErr result (IsWhy scope.now (and_of left.now right.now at) draft.new) }
{
    if !is_truth(scope, left) {
        return Err(LowerFault::NotLowered { at });
    }
    lower_test(scope, left, draft)?;
    lower_test(scope, right, draft)
}

/// Appends a value, and a jump if it is false.
#[cycle(lower)]
fn test_value(scope: &Scope, e: &Expr, draft: &mut Draft) -> Result<(), LowerFault>
    ensures ok { OnOk result (Opens scope.now (expr_tree e.now) draft.old draft.new) }
    ensures whole { OnOk result (IsAll scope.now (expr_tree e.now)) }
    ensures fault { IfErr result (IsWhy scope.now (expr_tree e.now) draft.new) }
{
    lower(scope, e, draft)?;
    put(draft, Instr::Done)
}

/// Appends code that evaluates an expression of a single value and pushes the value.
///
/// `names` holds the names that the expression uses; the first of several that are the same is meant. The code
/// reads their cells and tokens where they stand, and writes none. What stood in the draft stays, and no cells are
/// taken, whatever the answer is.
///
/// Code is made for literals, variables of single values, items of named lists at any depth, operators and `if`.
///
/// # Errors
///
/// `NotLowered` if the expression has a part for which no code is made, with the offset of the first one (`fault`): a
/// call, a list, a comprehension, a chain of indexes that doesn't choose one of the single values of a named list, a
/// name that `names` doesn't have as that of a single value, or an `and` or `or` whose left side isn't seen to be a
/// truth value.
/// `TooLong` if the draft has 2 to the power of 32 instructions. `Memory` if memory runs out.
pub fn lower_expr(names: &[Named], e: &Expr, draft: &mut Draft) -> Result<(), LowerFault>
    requires below { AreBelow draft.old.cells (names_view names.now) }
    ensures lowered { OnOk result (AddsLowered names.now (expr_tree e.now) draft.old draft.new) }
    ensures whole { OnOk result (IsWhole names.now (expr_tree e.now)) }
    ensures fault { IfErr result (IsFaultOf names.now (expr_tree e.now) draft.new) }
{
    lower(&Scope::outermost(names, &[]), e, draft)
}

/// Appends code that evaluates an expression of a single value, which may call functions, and pushes the value.
///
/// `names` holds the names that the expression uses, and `callees` the functions; the first of several that are the
/// same is meant. The code reads the cells and tokens of names where they stand. It writes only cells of routines: a
/// call puts its arguments there, each stored in the type of its formal, and runs the routine after one turn. What
/// stood in the draft stays.
///
/// # Errors
///
/// As for [`lower_expr`], but that a call is a part for which no code is made only if `callees` doesn't have its
/// function with as many arguments.
pub fn lower_calling(
    names: &[Named],
    callees: &[Callee],
    e: &Expr,
    draft: &mut Draft,
) -> Result<(), LowerFault>
    requires below { AreBelow draft.old.cells (names_view names.now) }
    ensures lowered { OnOk result
        (AddsLoweredWith callees.now names.now (expr_tree e.now) draft.old draft.new) }
    ensures whole { OnOk result (IsWholeWith callees.now names.now (expr_tree e.now)) }
    ensures fault { IfErr result (IsFaultWith callees.now names.now (expr_tree e.now) draft.new) }
{
    lower(&Scope::outermost(names, callees), e, draft)
}
