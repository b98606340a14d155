//! Lists as code: one small function a form.

ghost use Rattle.std.specs.Prelude.{◌≡◌, ◌∷◌, ◌+◌, ◌*◌, ◌≤◌, ℕ, Some, None, false, length, IfErr, OnOk};
ghost use Rattle.cal_ast.specs.Tree as tree;
ghost use Rattle.cal_ast.specs.View.{expr_tree};
ghost use Rattle.cal_model.specs.Value.{Single, Many};
ghost use Rattle.rvc_base.specs.declared.scalar.Scalar.{Scalar as Kind};
ghost use Rattle.cal_model.specs.View.{shape_view};
ghost use Rattle.lower_base.specs.Growing.{IsFault};
ghost use Rattle.lower_base.specs.Held.{AreBelow};
ghost use Rattle.lower_base.specs.Listed.{single_of};
ghost use Rattle.lower_base.specs.Names.{names_view};
ghost use Rattle.lower_base.specs.Parted.{sized};
ghost use Rattle.lower_base.specs.PartView.{places_of};
ghost use Rattle.lower_base.specs.Seen.{called, seen};
ghost use Rattle.lower_base.specs.SeenWords.{IsAll, IsWhy};
ghost use Rattle.lower_base.specs.Words.{if_of, index_of};
ghost use Rattle.expr_lower.specs.CounterView.{counter_view, gens_of};
ghost use Rattle.expr_lower.specs.Filling.{take_instr};
ghost use Rattle.lower_base.specs.Generators.{AllCount, how_many, makes_none};
ghost use Rattle.expr_lower.specs.FillWords.{AddsElements, AddsFilled, AddsInside, AreAllLaid, AreWhyNotLaid};
ghost use Rattle.expr_lower.specs.FillWords.{BeginsAt, HasCells, IsAllLaid, IsSized, IsWhyNotLaid};
ghost use Rattle.expr_lower.specs.FillWords.{IsFaultOfList, IsWholeList};
ghost use Rattle.expr_lower.specs.FillWords.{Lays, LaysAll, comp_of, list_of};
ghost use Rattle.expr_lower.specs.FillWords.{left_out_elements, left_out_inside, left_out_item, left_out_some};
ghost use Rattle.lower_base.specs.Growing.{first_cell, left_out_named, left_out_whole};
ghost use Rattle.expr_lower.specs.LeftOut.{left_out_item_apart, left_out_part, left_out_single};

use crate::apart::{items_seen, list_like};
use crate::counting::{put_first, put_more, put_next};
use crate::exprs::{lower, lower_test, offset};
use crate::generators::{Counter, counted_by, how_many, makes_none};
use crate::indexes::Indexes;
use crate::sizes::{alike, has_no_items};
use crate::taking::{fitting, take_counters, take_row};
use cal_ast::{Expr, ExprForm, Gen};
use cal_model::Shape;
use code_ir::Instr;
use lower_base::{
    Callee, Draft, Frame, LowerFault, Named, Scope, Seat, link, next_place, part_named, put,
    put_all, put_const, scalars, whole_called,
};

/// The cells that a comprehension fills, how many they are, the cell that counts those that are filled, and the place
/// of the turn before an element.
#[derive(Clone, Copy)]
pub(crate) struct Target {
    pub cell: u32,
    pub all: u32,
    pub filled: u32,
    pub turn: u32,
}

/// Appends code that fills the cells from one on with an expression of a type.
#[cycle(lower)]
pub fn fill(
    scope: &Scope,
    e: &Expr,
    shape: &Shape,
    cell: u32,
    draft: &mut Draft,
) -> Result<(), LowerFault>
    requires cells { HasCells (shape_view shape.now) cell draft.old }
    ensures ok { OnOk result
        (Lays scope.now (expr_tree e.now) (shape_view shape.now) cell draft.old draft.new) }
    ensures whole { OnOk result (IsAllLaid scope.now (shape_view shape.now) (expr_tree e.now)) }
    ensures fault { IfErr result
        (IsWhyNotLaid scope.now (shape_view shape.now) (expr_tree e.now) draft.new) }
{
    match &e.form {
        ExprForm::Number(_) => single(scope, e, shape, cell, e.at, draft),
        ExprForm::Bool(_) => single(scope, e, shape, cell, e.at, draft),
        ExprForm::Name(text) => named(scope, e, text.as_str(), shape, cell, e.at, draft),
        ExprForm::Paren(inner) => fill_paren(scope, inner, shape, cell, draft),
        ExprForm::If { test, yes, no } => fill_choice(scope, test, yes, no, shape, cell, draft),
        ExprForm::Prefix { op: _, of: _ } => single(scope, e, shape, cell, e.at, draft),
        ExprForm::Binary {
            op: _,
            left: _,
            right: _,
        } => single(scope, e, shape, cell, e.at, draft),
        ExprForm::Call { name: _, args: _ } => single(scope, e, shape, cell, e.at, draft),
        ExprForm::List(items) => list(scope, items, shape, cell, e.at, draft),
        ExprForm::Comp { item, gens } => comp(scope, item, gens, shape, cell, e.at, draft),
        ExprForm::Index { base, place } => {
            index(scope, e, base, place, shape, cell, e.at, draft)
        }
    }
}

/// Appends a single value, where one is meant.
#[cycle(lower)]
fn single(
    scope: &Scope,
    e: &Expr,
    shape: &Shape,
    cell: u32,
    at: u32,
    draft: &mut Draft,
) -> Result<(), LowerFault>
    ensures ok { OnOk result
        (Lays scope.now (expr_tree e.now) (shape_view shape.now) cell draft.old draft.new) }
    ensures whole { OnOk result
        (left_out_single (called scope.now) (seen scope.now) (shape_view shape.now) (expr_tree e.now) at ≡ None) }
    ensures fault { IfErr result (IsFault
        (left_out_single (called scope.now) (seen scope.now) (shape_view shape.now) (expr_tree e.now) at) draft.new) }
{
    match shape {
        Shape::Scalar(_) => one(scope, e, cell, draft),
        Shape::List(_, _) => Err(LowerFault::NotLowered { at }),
    }
}

/// Appends a single value, and the instruction that keeps it in its cell.
#[cycle(lower)]
fn one(scope: &Scope, e: &Expr, cell: u32, draft: &mut Draft) -> Result<(), LowerFault>
    ensures ok { (t : Kind)
        → OnOk result (Lays scope.now (expr_tree e.now) (Single t) cell draft.old draft.new) }
    ensures whole { OnOk result (IsAll scope.now (expr_tree e.now)) }
    ensures fault { IfErr result (IsWhy scope.now (expr_tree e.now) draft.new) }
{
    lower(scope, e, draft)?;
    put(draft, Instr::Store(cell, None))
}

/// Appends a name: of a single value, or of a list, where one is meant.
#[cycle(lower)]
fn named(
    scope: &Scope,
    e: &Expr,
    text: &str,
    shape: &Shape,
    cell: u32,
    at: u32,
    draft: &mut Draft,
) -> Result<(), LowerFault>
    requires name { expr_tree e.now ≡ tree.variable text.now at }
    requires cells { HasCells (shape_view shape.now) cell draft.old }
    ensures ok { OnOk result
        (Lays scope.now (tree.variable text.now at) (shape_view shape.now) cell draft.old draft.new) }
    ensures whole { OnOk result
        (left_out_named (seen scope.now) (shape_view shape.now) text.now at ≡ None) }
    ensures fault { IfErr result (IsFault
        (left_out_named (seen scope.now) (shape_view shape.now) text.now at) draft.new) }
{
    match shape {
        Shape::Scalar(_) => one(scope, e, cell, draft),
        Shape::List(_, _) => whole(scope, text, shape, cell, at, draft),
    }
}

/// Appends the instruction that copies a list that is named.
fn whole(
    scope: &Scope,
    text: &str,
    shape: &Shape,
    cell: u32,
    at: u32,
    draft: &mut Draft,
) -> Result<(), LowerFault>
    requires cells { HasCells (shape_view shape.now) cell draft.old }
    ensures ok { OnOk result
        (Lays scope.now (tree.variable text.now at) (shape_view shape.now) cell draft.old draft.new) }
    ensures whole { OnOk result
        (left_out_whole (seen scope.now) (shape_view shape.now) text.now at ≡ None) }
    ensures fault { IfErr result
        (IsFault (left_out_whole (seen scope.now) (shape_view shape.now) text.now at) draft.new) }
{
    let Some(part) = whole_called(scope, text) else {
        return Err(LowerFault::NotLowered { at });
    };
    if !alike(shape, part.shape) {
        return Err(LowerFault::NotLowered { at });
    }
    let Some(size) = scalars(shape) else {
        unreachable!();
    };
    put(draft, take_instr(cell, size, part.seat))
}

/// Appends an index: of a single value, or of a list, where one is meant.
#[cycle(lower)]
fn index(
    scope: &Scope,
    e: &Expr,
    base: &Expr,
    place: &Expr,
    shape: &Shape,
    cell: u32,
    at: u32,
    draft: &mut Draft,
) -> Result<(), LowerFault>
    requires index { expr_tree e.now ≡ index_of base.now place.now at }
    requires cells { HasCells (shape_view shape.now) cell draft.old }
    ensures ok { OnOk result
        (Lays scope.now (index_of base.now place.now at) (shape_view shape.now) cell draft.old draft.new) }
    ensures whole { OnOk result
        (IsAllLaid scope.now (shape_view shape.now) (index_of base.now place.now at)) }
    ensures fault { IfErr result
        (IsWhyNotLaid scope.now (shape_view shape.now) (index_of base.now place.now at) draft.new) }
{
    match shape {
        Shape::Scalar(_) => one(scope, e, cell, draft),
        Shape::List(_, _) => part(scope, e, base, place, shape, cell, at, draft),
    }
}

/// Appends a part of a named list that stands in cells: its offset, and the instruction that copies its numbers.
#[cycle(lower)]
fn part(
    scope: &Scope,
    e: &Expr,
    base: &Expr,
    place: &Expr,
    shape: &Shape,
    cell: u32,
    at: u32,
    draft: &mut Draft,
) -> Result<(), LowerFault>
    requires index { expr_tree e.now ≡ index_of base.now place.now at }
    requires cells { HasCells (shape_view shape.now) cell draft.old }
    ensures ok { OnOk result
        (Lays scope.now (index_of base.now place.now at) (shape_view shape.now) cell draft.old draft.new) }
    ensures whole { OnOk result
        (left_out_part (called scope.now) (seen scope.now) (shape_view shape.now)
        (expr_tree base.now) (expr_tree place.now) at ≡ None) }
    ensures fault { IfErr result (IsFault
        (left_out_part (called scope.now) (seen scope.now) (shape_view shape.now)
        (expr_tree base.now) (expr_tree place.now) at) draft.new) }
{
    let Some(part) = part_named(scope, e) else {
        return apart_list(scope, base, place, shape, cell, at, draft);
    };
    if !alike(shape, part.shape) {
        return Err(LowerFault::NotLowered { at });
    }
    let Some(from) = first_cell(part.seat) else {
        return Err(LowerFault::NotLowered { at });
    };
    let Some(size) = scalars(shape) else {
        unreachable!();
    };
    offset(scope, e, draft)?;
    put(draft, Instr::CopyFrom(cell, from, part.size, size))
}

/// Appends an item, which is a list, of a list that is filled apart: the list, the offset of the item in it, and the
/// instruction that copies its numbers.
#[cycle(lower)]
fn apart_list(
    scope: &Scope,
    base: &Expr,
    place: &Expr,
    shape: &Shape,
    cell: u32,
    at: u32,
    draft: &mut Draft,
) -> Result<(), LowerFault>
    requires cells { HasCells (shape_view shape.now) cell draft.old }
    ensures ok { OnOk result
        (Lays scope.now (index_of base.now place.now at) (shape_view shape.now) cell draft.old draft.new) }
    ensures whole { OnOk result
        (left_out_item_apart (called scope.now) (seen scope.now) (shape_view shape.now)
        (expr_tree base.now) (expr_tree place.now) at ≡ None) }
    ensures fault { IfErr result (IsFault
        (left_out_item_apart (called scope.now) (seen scope.now) (shape_view shape.now)
        (expr_tree base.now) (expr_tree place.now) at) draft.new) }
{
    let Some(count) = items_seen(scope, base, &Indexes::None) else {
        return Err(LowerFault::NotLowered { at });
    };
    let list = list_like(*draft.instrs.allocator(), count, shape)?;
    let Some(size) = scalars(&list) else {
        return Err(LowerFault::NotLowered { at });
    };
    let Some(each) = scalars(shape) else {
        unreachable!();
    };
    let first = take_row(size, draft)?;
    fill(scope, base, &list, first, draft)?;
    put_const(draft, 0)?;
    lower(scope, place, draft)?;
    put_all(
        draft,
        &[
            Instr::Index(count, each),
            Instr::CopyFrom(cell, first, size, each),
        ],
    )
}

/// The first cell of a seat, if it is in cells.
fn first_cell(seat: Seat) -> Option<u32>
    ensures { result ≡ first_cell seat }
{
    match seat {
        Seat::Cell(cell) => Some(cell),
        Seat::Tokens {
            port: _,
            first: _,
            step: _,
        } => None,
    }
}

/// The instruction that copies the numbers of a seat.
fn take_instr(cell: u32, size: u32, seat: Seat) -> Instr
    ensures { result ≡ take_instr cell size seat }
{
    match seat {
        Seat::Cell(from) => Instr::Copy(cell, from, size, None),
        Seat::Tokens { port, first, step } => Instr::TokenList(cell, port, first, step, size),
    }
}

/// Appends what stands in a pair of parentheses.
#[cycle(lower)]
fn fill_paren(
    scope: &Scope,
    inner: &Expr,
    shape: &Shape,
    cell: u32,
    draft: &mut Draft,
) -> Result<(), LowerFault>
    requires cells { HasCells (shape_view shape.now) cell draft.old }
    ensures ok { (at : ℕ) → OnOk result
        (Lays scope.now (tree.paren (expr_tree inner.now) at) (shape_view shape.now) cell draft.old draft.new) }
    ensures whole { OnOk result (IsAllLaid scope.now (shape_view shape.now) (expr_tree inner.now)) }
    ensures fault { IfErr result
        (IsWhyNotLaid scope.now (shape_view shape.now) (expr_tree inner.now) draft.new) }
{
    fill(scope, inner, shape, cell, draft)
}

/// Appends an `if`: the condition, and a branch for each answer.
#[cycle(lower)]
fn fill_choice(
    scope: &Scope,
    test: &Expr,
    yes: &Expr,
    no: &Expr,
    shape: &Shape,
    cell: u32,
    draft: &mut Draft,
) -> Result<(), LowerFault>
    requires cells { HasCells (shape_view shape.now) cell draft.old }
    ensures ok { (at : ℕ) → OnOk result
        (Lays scope.now (if_of test.now yes.now no.now at) (shape_view shape.now) cell draft.old draft.new) }
    ensures whole { OnOk result
        (IsAllLaid scope.now (shape_view shape.now) (if_of test.now yes.now no.now 0)) }
    ensures fault { IfErr result
        (IsWhyNotLaid scope.now (shape_view shape.now) (if_of test.now yes.now no.now 0) draft.new) }
{
    let start = draft.instrs.len();
    lower_test(scope, test, draft)?;
    let exits = draft.instrs.len();
    fill(scope, yes, shape, cell, draft)?;
    let jump = draft.instrs.len();
    put(draft, Instr::Jump(0))?;
    let out = next_place(draft)?;
    fill(scope, no, shape, cell, draft)?;
    let end = next_place(draft)?;
    link(draft, start, exits, out, jump, end);
    Ok(())
}

/// Appends a list that is written out, where one of as many items is meant.
#[cycle(lower)]
fn list(
    scope: &Scope,
    items: &[Expr],
    shape: &Shape,
    cell: u32,
    at: u32,
    draft: &mut Draft,
) -> Result<(), LowerFault>
    requires cells { HasCells (shape_view shape.now) cell draft.old }
    ensures ok { OnOk result
        (Lays scope.now (list_of items.now at) (shape_view shape.now) cell draft.old draft.new) }
    ensures whole { OnOk result (IsAllLaid scope.now (shape_view shape.now) (list_of items.now at)) }
    ensures fault { IfErr result
        (IsWhyNotLaid scope.now (shape_view shape.now) (list_of items.now at) draft.new) }
{
    match shape {
        Shape::Scalar(_) => Err(LowerFault::NotLowered { at }),
        Shape::List(count, of) => {
            if items.len() != *count as usize {
                return Err(LowerFault::NotLowered { at });
            }
            let Some(each) = scalars(of) else {
                unreachable!();
            };
            fill_all(scope, items, of, each, cell, draft)
        }
    }
}

/// Appends code that fills the cells from one on with items of a type, one after the other.
#[cycle(lower)]
pub fn fill_all(
    scope: &Scope,
    items: &[Expr],
    shape: &Shape,
    each: u32,
    cell: u32,
    draft: &mut Draft,
) -> Result<(), LowerFault>
    requires size { sized (shape_view shape.now) ≡ Some each }
    requires cells { cell + length items.now * each ≤ draft.old.cells }
    ensures ok { OnOk result
        (LaysAll scope.now (places_of items.now) (shape_view shape.now) cell draft.old draft.new) }
    ensures whole { OnOk result (AreAllLaid scope.now (shape_view shape.now) (places_of items.now)) }
    ensures fault { IfErr result
        (AreWhyNotLaid scope.now (shape_view shape.now) (places_of items.now) draft.new) }
{
    let Some((first, rest)) = items.split_first() else {
        return Ok(());
    };
    fitting(draft.cells);
    fill(scope, first, shape, cell, draft)?;
    fill_all(scope, rest, shape, each, cell + each, draft)
}

/// Appends a comprehension, where a list of as many items is meant. One that makes no element needs no code.
#[cycle(lower)]
fn comp(
    scope: &Scope,
    item: &Expr,
    gens: &[Gen],
    shape: &Shape,
    cell: u32,
    at: u32,
    draft: &mut Draft,
) -> Result<(), LowerFault>
    requires cells { HasCells (shape_view shape.now) cell draft.old }
    ensures ok { OnOk result
        (Lays scope.now (comp_of item.now gens.now at) (shape_view shape.now) cell draft.old draft.new) }
    ensures whole { OnOk result
        (IsAllLaid scope.now (shape_view shape.now) (comp_of item.now gens.now at)) }
    ensures fault { IfErr result
        (IsWhyNotLaid scope.now (shape_view shape.now) (comp_of item.now gens.now at) draft.new) }
{
    if !makes_none(gens) {
        return some_made(scope, item, gens, shape, cell, at, draft);
    }
    if !has_no_items(shape) {
        return Err(LowerFault::NotLowered { at });
    }
    Ok(())
}

/// Appends a comprehension that makes some elements, where a list of as many items is meant.
#[cycle(lower)]
fn some_made(
    scope: &Scope,
    item: &Expr,
    gens: &[Gen],
    shape: &Shape,
    cell: u32,
    at: u32,
    draft: &mut Draft,
) -> Result<(), LowerFault>
    requires some { makes_none (gens_of gens.now) ≡ false }
    requires cells { HasCells (shape_view shape.now) cell draft.old }
    ensures ok { OnOk result
        (Lays scope.now (comp_of item.now gens.now at) (shape_view shape.now) cell draft.old draft.new) }
    ensures whole { OnOk result
        (left_out_some scope.now (shape_view shape.now) gens.now item.now at ≡ None) }
    ensures fault { IfErr result
        (IsFault (left_out_some scope.now (shape_view shape.now) gens.now item.now at) draft.new) }
{
    match shape {
        Shape::Scalar(_) => Err(LowerFault::NotLowered { at }),
        Shape::List(count, of) => {
            let Some(many) = how_many(gens) else {
                return Err(LowerFault::NotLowered { at });
            };
            if many != *count {
                return Err(LowerFault::NotLowered { at });
            }
            let Some(all) = scalars(shape) else {
                unreachable!();
            };
            generate(scope, item, gens, of, cell, all, draft)
        }
    }
}

/// Appends a comprehension: the cells of its generators, which are put at their first numbers, and its elements.
#[cycle(lower)]
fn generate(
    scope: &Scope,
    item: &Expr,
    gens: &[Gen],
    items: &Shape,
    cell: u32,
    all: u32,
    draft: &mut Draft,
) -> Result<(), LowerFault>
    requires many { (count : ℕ) × (how_many (gens_of gens.now) ≡ Some count)
        × (sized (Many count (shape_view items.now)) ≡ Some all) }
    requires cells { cell + all ≤ draft.old.cells }
    ensures ok { (at : ℕ) (count : ℕ) → how_many (gens_of gens.now) ≡ Some count → OnOk result
        (Lays scope.now (comp_of item.now gens.now at) (Many count (shape_view items.now)) cell draft.old draft.new) }
    ensures whole { OnOk result (left_out_elements scope.now gens.now (shape_view items.now) item.now ≡ None) }
    ensures fault { IfErr result
        (IsFault (left_out_elements scope.now gens.now (shape_view items.now) item.now) draft.new) }
{
    let filled = take_counters(gens.len(), draft)?;
    put(draft, Instr::Zero(filled, 1))?;
    put_first(gens, filled + 1, draft)?;
    let turn = next_place(draft)?;
    let to = Target {
        cell,
        all,
        filled,
        turn,
    };
    elements(scope, item, gens, items, to, filled + 1, draft)
}

/// Appends the elements of generators, from the turn before an element on.
#[cycle(lower)]
fn elements(
    scope: &Scope,
    item: &Expr,
    gens: &[Gen],
    items: &Shape,
    to: Target,
    k: u32,
    draft: &mut Draft,
) -> Result<(), LowerFault>
    requires begins { BeginsAt to gens.now k draft.old }
    requires counts { AllCount (gens_of gens.now) }
    requires size { IsSized (shape_view items.now) }
    ensures ok { OnOk result
        (AddsElements scope.now (gens_of gens.now) (expr_tree item.now) (shape_view items.now) to k
        draft.old draft.new) }
    ensures whole { OnOk result (left_out_elements scope.now gens.now (shape_view items.now) item.now ≡ None) }
    ensures fault { IfErr result
        (IsFault (left_out_elements scope.now gens.now (shape_view items.now) item.now) draft.new) }
{
    match gens.split_first() {
        Some((first, rest)) => each_number(scope, item, first, rest, items, to, k, draft),
        None => element(scope, item, items, to, draft),
    }
}

/// Appends the elements for each number of a generator.
#[cycle(lower)]
fn each_number(
    scope: &Scope,
    item: &Expr,
    first: &Gen,
    rest: &[Gen],
    items: &Shape,
    to: Target,
    k: u32,
    draft: &mut Draft,
) -> Result<(), LowerFault>
    requires begins { BeginsAt to (first.now ∷ rest.now) k draft.old }
    requires counts { AllCount (gens_of (first.now ∷ rest.now)) }
    requires size { IsSized (shape_view items.now) }
    ensures ok { OnOk result
        (AddsElements scope.now (gens_of (first.now ∷ rest.now)) (expr_tree item.now)
        (shape_view items.now) to k draft.old draft.new) }
    ensures whole { OnOk result
        (left_out_elements scope.now (first.now ∷ rest.now) (shape_view items.now) item.now ≡ None) }
    ensures fault { IfErr result
        (IsFault (left_out_elements scope.now (first.now ∷ rest.now) (shape_view items.now) item.now) draft.new) }
{
    let Some(x) = counted_by(first) else {
        unreachable!();
    };
    fitting(draft.cells);
    inside(scope, item, x, rest, items, to, k, draft)?;
    put_next(k, x, rest, to.turn, draft)
}

/// Appends elements that see the variable of a generator.
#[cycle(lower)]
fn inside(
    scope: &Scope,
    item: &Expr,
    x: Counter,
    rest: &[Gen],
    items: &Shape,
    to: Target,
    k: u32,
    draft: &mut Draft,
) -> Result<(), LowerFault>
    requires begins { BeginsAt to rest.now (k + 2) draft.old }
    requires counts { AllCount (gens_of rest.now) }
    requires size { IsSized (shape_view items.now) }
    ensures ok { OnOk result
        (AddsInside scope.now (counter_view x.entry) (gens_of rest.now) (expr_tree item.now)
        (shape_view items.now) to k draft.old draft.new) }
    ensures whole { OnOk result
        (left_out_inside scope.now (counter_view x.entry) (k + 1) rest.now (shape_view items.now) item.now ≡ None) }
    ensures fault { IfErr result (IsFault
        (left_out_inside scope.now (counter_view x.entry) (k + 1) rest.now (shape_view items.now) item.now) draft.new) }
{
    fitting(draft.cells);
    let shape = Shape::Scalar(x.kind);
    let frame = Frame {
        name: x.name,
        shape: &shape,
        cell: k + 1,
        outer: scope.frame,
    };
    let inner = scope.under(&frame);
    elements(&inner, item, rest, items, to, k + 2, draft)
}

/// Appends one element: a turn, the element, and what puts it where it belongs and counts it.
#[cycle(lower)]
fn element(
    scope: &Scope,
    item: &Expr,
    items: &Shape,
    to: Target,
    draft: &mut Draft,
) -> Result<(), LowerFault>
    requires turn { to.turn ≡ length draft.old.instrs.items }
    requires size { IsSized (shape_view items.now) }
    ensures ok { OnOk result
        (AddsElements scope.now tree.nil (expr_tree item.now) (shape_view items.now) to
        draft.old.cells draft.old draft.new) }
    ensures whole { OnOk result (left_out_item scope.now (seen scope.now) (shape_view items.now) item.now ≡ None) }
    ensures fault { IfErr result
        (IsFault (left_out_item scope.now (seen scope.now) (shape_view items.now) item.now) draft.new) }
{
    match items {
        Shape::Scalar(_) => one_element(scope, item, to, draft),
        Shape::List(_, _) => list_element(scope, item, items, to, draft),
    }
}

/// Appends an element of a single value.
#[cycle(lower)]
fn one_element(scope: &Scope, item: &Expr, to: Target, draft: &mut Draft) -> Result<(), LowerFault>
    requires turn { to.turn ≡ length draft.old.instrs.items }
    ensures ok { (t : Kind) → OnOk result
        (AddsElements scope.now tree.nil (expr_tree item.now) (Single t) to draft.old.cells draft.old draft.new) }
    ensures whole { OnOk result (IsAll scope.now (expr_tree item.now)) }
    ensures fault { IfErr result (IsWhy scope.now (expr_tree item.now) draft.new) }
{
    put_all(draft, &[Instr::Turn, Instr::Load(to.filled)])?;
    lower(scope, item, draft)?;
    put(draft, Instr::StoreAt(to.cell, to.all, None))?;
    put_more(to.filled, 1, draft)
}

/// Appends an element that is a list: it is filled apart, and copied.
#[cycle(lower)]
fn list_element(
    scope: &Scope,
    item: &Expr,
    items: &Shape,
    to: Target,
    draft: &mut Draft,
) -> Result<(), LowerFault>
    requires turn { to.turn ≡ length draft.old.instrs.items }
    requires size { IsSized (shape_view items.now) }
    requires list { single_of (shape_view items.now) ≡ None }
    ensures ok { OnOk result
        (AddsElements scope.now tree.nil (expr_tree item.now) (shape_view items.now) to
        draft.old.cells draft.old draft.new) }
    ensures whole { OnOk result (IsAllLaid scope.now (shape_view items.now) (expr_tree item.now)) }
    ensures fault { IfErr result
        (IsWhyNotLaid scope.now (shape_view items.now) (expr_tree item.now) draft.new) }
{
    let Some(each) = scalars(items) else {
        unreachable!();
    };
    let area = take_row(each, draft)?;
    put(draft, Instr::Turn)?;
    fill(scope, item, items, area, draft)?;
    put_all(
        draft,
        &[
            Instr::Load(to.filled),
            Instr::CopyTo(to.cell, to.all, area, each, None),
        ],
    )?;
    put_more(to.filled, each, draft)
}

/// Appends code that fills the cells from one on with an expression of a type, which may call functions.
///
/// `names` holds the names that the expression uses, whose cells lie below the one that is given, and `callees` the
/// functions; the first of several that are the same is meant. The numbers of the value go to the cells as they are,
/// one after the other; the sizes of the numbers in `shape` don't matter. The cells that are filled, which the draft
/// has already, may not be read by what is evaluated, so a list that may read what it replaces is filled apart and
/// then copied. More cells are taken for generators, and for the items of a comprehension that are lists. What stood in
/// the draft stays.
///
/// Code is made for single values as by [`lower_calling`](crate::lower_calling), and for lists, also in lists, that are
/// named or written out, for their items that are lists, for `if`, and for comprehensions whose types and bounds are
/// written out. A list on which an index is put is filled apart, unless it is a named one in cells.
///
/// # Errors
///
/// `NotLowered` if the expression has a part for which no code is made, with the offset of the first one (`fault`):
/// beside those of single values an index that is to give a list of a named list of tokens, a call that is to give one, a
/// name, an item or a list with another number of items, or a comprehension whose generators aren't written out.
/// `TooLong` if the draft has 2 to the power of 32 instructions, `TooManyCells` if it has as many cells. `Memory` if
/// memory runs out.
pub fn lower_list(
    names: &[Named],
    callees: &[Callee],
    e: &Expr,
    shape: &Shape,
    cell: u32,
    draft: &mut Draft,
) -> Result<(), LowerFault>
    requires below { AreBelow cell (names_view names.now) }
    requires cells { HasCells (shape_view shape.now) cell draft.old }
    ensures lowered { OnOk result (AddsFilled callees.now names.now
        (expr_tree e.now) (shape_view shape.now) cell draft.old draft.new) }
    ensures whole { OnOk result
        (IsWholeList callees.now names.now (shape_view shape.now) (expr_tree e.now)) }
    ensures fault { IfErr result
        (IsFaultOfList callees.now names.now (shape_view shape.now) (expr_tree e.now) draft.new) }
{
    fill(&Scope::outermost(names, callees), e, shape, cell, draft)
}
