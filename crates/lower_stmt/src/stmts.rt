//! Statements as code: one small function a form.

ghost use Rattle.std.specs.Prelude.{◌≡◌, ◌∷◌, [], ℕ, IfErr, None, OnOk, Some, string_bytes};
ghost use Rattle.cal_ast.specs.Tree.{Tree};
ghost use Rattle.cal_ast.specs.View.{stmt_tree, type_tree};
ghost use Rattle.cal_model.specs.View.{shape_view};
ghost use Rattle.lower_base.specs.Meant.{single_meant};
ghost use Rattle.lower_stmt.specs.Bodies.{AddsCalling, AreWholeCalling, IsFaultCalling};
ghost use Rattle.lower_stmt.specs.Changing.{AreTyped, NamesApart};
ghost use Rattle.lower_base.specs.Held.{AreBelow};
ghost use Rattle.lower_base.specs.Names.{names_view};
ghost use Rattle.lower_base.specs.Growing.{IsFault};
ghost use Rattle.lower_stmt.specs.Targets.{cell_named};
ghost use Rattle.lower_stmt.specs.StmtSeen.{called, seen};
ghost use Rattle.lower_stmt.specs.SeenStmts.{AddsBlock, behind, left_out_block};
ghost use Rattle.lower_stmt.specs.SeenStmts.{AddsBody, AddsStmt, AddsStmts, AreAllOf, AreWhyNot};
ghost use Rattle.lower_stmt.specs.SeenStmts.{CountsSpan, IsAllOf, IsAllOfBody, IsWhyNoBody, IsWhyNot};
ghost use Rattle.lower_stmt.specs.StmtWords.{AddsExecuted, AreWhole, IsFaultAmong};
ghost use Rattle.lower_stmt.specs.StmtWords.{alone_of, body_of, branch_of, counted_of, foreach_of, fork_of};
ghost use Rattle.lower_stmt.specs.StmtWords.{run_of, set_of, set_one_of, while_of};

use crate::callees::{ProcCallee, procedure_for, put_run};
use crate::counter::{
    Span, put_bounds, put_count, put_first, put_less, put_next, put_turn, put_turn_alone, span_of,
    take_cells,
};
use crate::deep::set_part;
use crate::jumps::{exit_at, jump_at};
use crate::lists::{set_copy, set_filled, set_items};
use crate::scope::StmtScope;
use crate::targets::{cell_named, cells_named};
use cal_ast::{Expr, ExprForm, Ident, Stmt, StmtForm, TypeExpr, VarDecl};
use cal_model::Shape;
use code_ir::Instr;
use expr_lower::{lower, lower_args, lower_test, shape_meant, single_meant, start, start_list};
use lower_base::{
    Callee, Draft, Frame, LowerFault, Named, close, link, next_place, put, take_cell,
};
use rvc_base::Scalar;

/// Appends code that executes a statement.
#[cycle(lower_stmt)]
fn lower_stmt(scope: &StmtScope, s: &Stmt, draft: &mut Draft) -> Result<(), LowerFault>
    ensures ok { OnOk result (AddsStmt scope.now (stmt_tree s.now) draft.old draft.new) }
    ensures whole { OnOk result (IsAllOf scope.now (stmt_tree s.now)) }
    ensures fault { IfErr result (IsWhyNot scope.now (stmt_tree s.now) draft.new) }
{
    match &s.form {
        StmtForm::Assign {
            name,
            places,
            value,
        } => set(scope, name, places, value, s.at, draft),
        StmtForm::Call { name, args } => call(scope, name, args, s.at, draft),
        StmtForm::If { test, yes, no } => branch(scope, test, yes, no, draft),
        StmtForm::While { test, body } => repeat(scope, test, body, draft),
        StmtForm::Foreach {
            shape,
            name,
            from,
            to,
            body,
        } => each(scope, shape, name, from, to, body, s.at, draft),
        StmtForm::Block { vars, body } => block(scope, vars, body, draft),
    }
}

/// Appends code of statements, one after the other.
#[cycle(lower_stmt)]
pub(crate) fn lower_all(
    scope: &StmtScope,
    body: &[Stmt],
    draft: &mut Draft,
) -> Result<(), LowerFault>
    ensures ok { OnOk result (AddsStmts scope.now (body_of body.now) draft.old draft.new) }
    ensures whole { OnOk result (AreAllOf scope.now (body_of body.now)) }
    ensures fault { IfErr result (AreWhyNot scope.now (body_of body.now) draft.new) }
{
    for s in body {
        lower_stmt(scope, s, draft)?;
    }
    Ok(())
}

/// Appends an assignment to a variable or to an item of it.
fn set(
    scope: &StmtScope,
    name: &Ident,
    places: &[Expr],
    value: &Expr,
    at: u32,
    draft: &mut Draft,
) -> Result<(), LowerFault>
    ensures ok { OnOk result
        (AddsStmt scope.now (set_of name.now places.now value.now at) draft.old draft.new) }
    ensures whole { OnOk result (IsAllOf scope.now (set_of name.now places.now value.now at)) }
    ensures fault { IfErr result
        (IsWhyNot scope.now (set_of name.now places.now value.now at) draft.new) }
{
    match places {
        [] => set_one(scope, name, value, at, draft),
        [place] => set_item(scope, name, places, place, value, at, draft),
        _ => set_part(scope, name, places, value, at, draft),
    }
}

/// Appends an assignment to a variable of single values: its value, and the instruction that stores it.
fn set_one(
    scope: &StmtScope,
    name: &Ident,
    value: &Expr,
    at: u32,
    draft: &mut Draft,
) -> Result<(), LowerFault>
    ensures ok { OnOk result
        (AddsStmt scope.now (set_one_of name.now value.now at) draft.old draft.new) }
    ensures whole { OnOk result (IsAllOf scope.now (set_one_of name.now value.now at)) }
    ensures fault { IfErr result
        (IsWhyNot scope.now (set_one_of name.now value.now at) draft.new) }
{
    let Some(to) = cell_named(&scope.values, name.text.as_str()) else {
        return set_list(scope, name, value, at, draft);
    };
    lower(&scope.values, value, draft)?;
    put(draft, Instr::Store(to.cell, Some(to.kind)))
}

/// Appends an assignment to a whole list: the instructions that store the items of another one.
fn set_list(
    scope: &StmtScope,
    name: &Ident,
    value: &Expr,
    at: u32,
    draft: &mut Draft,
) -> Result<(), LowerFault>
    requires not_one { cell_named (seen scope.now) (string_bytes name.now.text) ≡ None }
    ensures ok { OnOk result
        (AddsStmt scope.now (set_one_of name.now value.now at) draft.old draft.new) }
    ensures whole { OnOk result (IsAllOf scope.now (set_one_of name.now value.now at)) }
    ensures fault { IfErr result
        (IsWhyNot scope.now (set_one_of name.now value.now at) draft.new) }
{
    let Some(to) = cells_named(&scope.values, name.text.as_str()) else {
        return set_filled(scope, name, value, at, draft);
    };
    match &value.form {
        ExprForm::List(items) => set_items(scope, name, to, items, at, draft),
        ExprForm::Name(_) => set_copy(scope, name, to, value, at, draft),
        _ => set_filled(scope, name, value, at, draft),
    }
}

/// Appends an assignment to an item of a list: if that is one of single values, the place, the value, and the
/// instruction that stores it there.
fn set_item(
    scope: &StmtScope,
    name: &Ident,
    places: &[Expr],
    place: &Expr,
    value: &Expr,
    at: u32,
    draft: &mut Draft,
) -> Result<(), LowerFault>
    requires one { places.now ≡ place.now ∷ [] }
    ensures ok { OnOk result
        (AddsStmt scope.now (set_of name.now places.now value.now at) draft.old draft.new) }
    ensures whole { OnOk result (IsAllOf scope.now (set_of name.now places.now value.now at)) }
    ensures fault { IfErr result
        (IsWhyNot scope.now (set_of name.now places.now value.now at) draft.new) }
{
    let Some(to) = cells_named(&scope.values, name.text.as_str()) else {
        return set_part(scope, name, places, value, at, draft);
    };
    lower(&scope.values, place, draft)?;
    lower(&scope.values, value, draft)?;
    put(draft, Instr::StoreAt(to.cell, to.size, Some(to.kind)))
}

/// Appends a call of a procedure: its arguments, a turn, and the instructions that put the arguments into the cells of
/// the formals and run the routine.
fn call(
    scope: &StmtScope,
    name: &Ident,
    args: &[Expr],
    at: u32,
    draft: &mut Draft,
) -> Result<(), LowerFault>
    ensures ok { OnOk result
        (AddsStmt scope.now (run_of name.now args.now at) draft.old draft.new) }
    ensures whole { OnOk result (IsAllOf scope.now (run_of name.now args.now at)) }
    ensures fault { IfErr result (IsWhyNot scope.now (run_of name.now args.now at) draft.new) }
{
    let Some(callee) = procedure_for(scope.procedures, name.text.as_str(), args) else {
        return Err(LowerFault::NotLowered { at });
    };
    lower_args(&scope.values, args, draft)?;
    put_run(callee, draft)
}

/// Appends an `if`, with or without an `else`.
#[cycle(lower_stmt)]
fn branch(
    scope: &StmtScope,
    test: &Expr,
    yes: &[Stmt],
    no: &Option<Vec<Stmt>>,
    draft: &mut Draft,
) -> Result<(), LowerFault>
    ensures ok { (at : ℕ)
        → OnOk result
        (AddsStmt scope.now (branch_of test.now yes.now no.now at) draft.old draft.new) }
    ensures whole { OnOk result (IsAllOf scope.now (branch_of test.now yes.now no.now 0)) }
    ensures fault { IfErr result
        (IsWhyNot scope.now (branch_of test.now yes.now no.now 0) draft.new) }
{
    match no {
        Some(no) => fork(scope, test, yes, no, draft),
        None => alone(scope, test, yes, draft),
    }
}

/// Appends an `if` without an `else`: the condition, and what is done if it is true.
#[cycle(lower_stmt)]
fn alone(scope: &StmtScope, test: &Expr, yes: &[Stmt], draft: &mut Draft) -> Result<(), LowerFault>
    ensures ok { (at : ℕ)
        → OnOk result (AddsStmt scope.now (alone_of test.now yes.now at) draft.old draft.new) }
    ensures whole { OnOk result (IsAllOf scope.now (alone_of test.now yes.now 0)) }
    ensures fault { IfErr result (IsWhyNot scope.now (alone_of test.now yes.now 0) draft.new) }
{
    let start = draft.instrs.len();
    lower_test(&scope.values, test, draft)?;
    let exits = draft.instrs.len();
    lower_all(scope, yes, draft)?;
    let end = next_place(draft)?;
    close(draft, start, exits, end);
    Ok(())
}

/// Appends an `if` with an `else`: the condition, and a branch for each answer.
#[cycle(lower_stmt)]
fn fork(
    scope: &StmtScope,
    test: &Expr,
    yes: &[Stmt],
    no: &[Stmt],
    draft: &mut Draft,
) -> Result<(), LowerFault>
    ensures ok { (at : ℕ)
        → OnOk result (AddsStmt scope.now (fork_of test.now yes.now no.now at) draft.old draft.new) }
    ensures whole { OnOk result (IsAllOf scope.now (fork_of test.now yes.now no.now 0)) }
    ensures fault { IfErr result
        (IsWhyNot scope.now (fork_of test.now yes.now no.now 0) draft.new) }
{
    let start = draft.instrs.len();
    lower_test(&scope.values, test, draft)?;
    let exits = draft.instrs.len();
    lower_all(scope, yes, draft)?;
    let jump = draft.instrs.len();
    put(draft, Instr::Jump(0))?;
    let out = next_place(draft)?;
    lower_all(scope, no, draft)?;
    let end = next_place(draft)?;
    link(draft, start, exits, out, jump, end);
    Ok(())
}

/// Appends a `while`: a jump to the condition, a turn and the body, and the condition with a jump back to the turn.
#[cycle(lower_stmt)]
fn repeat(
    scope: &StmtScope,
    test: &Expr,
    body: &[Stmt],
    draft: &mut Draft,
) -> Result<(), LowerFault>
    ensures ok { (at : ℕ)
        → OnOk result (AddsStmt scope.now (while_of test.now body.now at) draft.old draft.new) }
    ensures whole { OnOk result (IsAllOf scope.now (while_of test.now body.now 0)) }
    ensures fault { IfErr result (IsWhyNot scope.now (while_of test.now body.now 0) draft.new) }
{
    let start = draft.instrs.len();
    put(draft, Instr::Jump(0))?;
    let turn = next_place(draft)?;
    put(draft, Instr::Turn)?;
    lower_all(scope, body, draft)?;
    let first = draft.instrs.len();
    let head = next_place(draft)?;
    lower_test(&scope.values, test, draft)?;
    let exits = draft.instrs.len();
    put(draft, Instr::Jump(turn))?;
    let out = next_place(draft)?;
    close(draft, first, exits, out);
    jump_at(draft, start, head);
    Ok(())
}

/// Appends a `foreach`. If its bounds are written out, the cell of its variable counts.
#[cycle(lower_stmt)]
fn each(
    scope: &StmtScope,
    shape: &TypeExpr,
    name: &Ident,
    from: &Expr,
    to: &Expr,
    body: &[Stmt],
    at: u32,
    draft: &mut Draft,
) -> Result<(), LowerFault>
    ensures ok { OnOk result (AddsStmt scope.now
        (foreach_of shape.now name.now from.now to.now body.now at) draft.old draft.new) }
    ensures whole { OnOk result
        (IsAllOf scope.now (foreach_of shape.now name.now from.now to.now body.now at)) }
    ensures fault { IfErr result (IsWhyNot scope.now
        (foreach_of shape.now name.now from.now to.now body.now at) draft.new) }
{
    match span_of(shape, from, to) {
        Some(span) => each_counted(scope, name, span, body, draft),
        None => each_between(scope, shape, name, from, to, body, at, draft),
    }
}

/// Appends a `foreach` whose variable counts: its first number, and for each number a turn and the body.
#[cycle(lower_stmt)]
fn each_counted(
    scope: &StmtScope,
    name: &Ident,
    span: Span,
    body: &[Stmt],
    draft: &mut Draft,
) -> Result<(), LowerFault>
    ensures ok { (shape from to : Tree) (at : ℕ) → CountsSpan shape from to span
        → OnOk result (AddsStmt scope.now
        (counted_of shape name.now from to body.now at) draft.old draft.new) }
    ensures whole { (shape from to : Tree) (at : ℕ) → CountsSpan shape from to span
        → OnOk result (IsAllOf scope.now (counted_of shape name.now from to body.now at)) }
    ensures fault { (shape from to : Tree) (at : ℕ) → CountsSpan shape from to span
        → IfErr result (IsWhyNot scope.now
        (counted_of shape name.now from to body.now at) draft.new) }
{
    let cell = take_cell(draft)?;
    put_first(cell, span.low, draft)?;
    let turn = next_place(draft)?;
    put_turn_alone(draft)?;
    each_body(scope, name, cell, span.kind, body, draft)?;
    put_count(cell, span.high, turn, draft)
}

/// Appends a `foreach`: the bounds, and for each number a turn and the body. At the last number it ends, so that the
/// number is never one too great.
#[cycle(lower_stmt)]
fn each_between(
    scope: &StmtScope,
    shape: &TypeExpr,
    name: &Ident,
    from: &Expr,
    to: &Expr,
    body: &[Stmt],
    at: u32,
    draft: &mut Draft,
) -> Result<(), LowerFault>
    ensures ok { OnOk result (AddsStmt scope.now
        (foreach_of shape.now name.now from.now to.now body.now at) draft.old draft.new) }
    ensures whole { OnOk result
        (IsAllOf scope.now (foreach_of shape.now name.now from.now to.now body.now at)) }
    ensures fault { IfErr result (IsWhyNot scope.now
        (foreach_of shape.now name.now from.now to.now body.now at) draft.new) }
{
    let Some(kind) = single_meant(shape) else {
        return Err(LowerFault::NotLowered { at });
    };
    let counter = take_cells(kind, draft)?;
    lower(&scope.values, from, draft)?;
    lower(&scope.values, to, draft)?;
    put_bounds(counter, draft)?;
    let skip = draft.instrs.len();
    put(draft, Instr::JumpIfNot(0))?;
    let turn = next_place(draft)?;
    put_turn(counter, draft)?;
    each_body(scope, name, counter.variable, counter.kind, body, draft)?;
    put_less(counter, draft)?;
    let exit = draft.instrs.len();
    put(draft, Instr::JumpIfNot(0))?;
    put_next(counter, turn, draft)?;
    let out = next_place(draft)?;
    exit_at(draft, skip, out);
    exit_at(draft, exit, out);
    Ok(())
}

/// Appends the body of a `foreach`, which sees its variable.
#[cycle(lower_stmt)]
fn each_body(
    scope: &StmtScope,
    name: &Ident,
    cell: u32,
    kind: Scalar,
    body: &[Stmt],
    draft: &mut Draft,
) -> Result<(), LowerFault>
    ensures ok { OnOk result
        (AddsBody name.now cell kind scope.now (body_of body.now) draft.old draft.new) }
    ensures whole { OnOk result (IsAllOfBody name.now cell kind scope.now (body_of body.now)) }
    ensures fault { IfErr result
        (IsWhyNoBody name.now cell kind scope.now (body_of body.now) draft.new) }
{
    let shape = Shape::Scalar(kind);
    let frame = Frame {
        name: name.text.as_str(),
        shape: &shape,
        cell,
        outer: scope.values.frame,
    };
    let inner = scope.under(&frame);
    lower_all(&inner, body, draft)
}

/// Appends a block: its variables, each of which is seen by those behind it, and its statements.
#[cycle(lower_stmt)]
fn block(
    scope: &StmtScope,
    vars: &[VarDecl],
    body: &[Stmt],
    draft: &mut Draft,
) -> Result<(), LowerFault>
    ensures ok { OnOk result (AddsBlock (called scope.now) (seen scope.now) vars.now body.now draft.old draft.new) }
    ensures whole { OnOk result (left_out_block (called scope.now) (seen scope.now) vars.now body.now ≡ None) }
    ensures fault { IfErr result
        (IsFault (left_out_block (called scope.now) (seen scope.now) vars.now body.now) draft.new) }
{
    match vars.split_first() {
        Some((first, rest)) => match single_meant(&first.shape) {
            Some(kind) => one_variable(scope, first, kind, rest, body, draft),
            None => list_variable(scope, first, rest, body, draft),
        },
        None => lower_all(scope, body, draft),
    }
}

/// Appends a variable of single values, and what sees it.
#[cycle(lower_stmt)]
fn one_variable(
    scope: &StmtScope,
    first: &VarDecl,
    kind: Scalar,
    rest: &[VarDecl],
    body: &[Stmt],
    draft: &mut Draft,
) -> Result<(), LowerFault>
    requires meant { single_meant (type_tree first.now.shape) ≡ Some kind }
    ensures ok { OnOk result
        (AddsBlock (called scope.now) (seen scope.now) (first.now ∷ rest.now) body.now draft.old draft.new) }
    ensures whole { OnOk result
        (left_out_block (called scope.now) (seen scope.now) (first.now ∷ rest.now) body.now ≡ None) }
    ensures fault { IfErr result
        (IsFault (left_out_block (called scope.now) (seen scope.now) (first.now ∷ rest.now) body.now) draft.new) }
{
    let cell = take_cell(draft)?;
    start(&scope.values, &first.start, cell, kind, draft)?;
    behind(scope, first, &Shape::Scalar(kind), cell, rest, body, draft)
}

/// Appends a variable of a list, and what sees it.
#[cycle(lower_stmt)]
fn list_variable(
    scope: &StmtScope,
    first: &VarDecl,
    rest: &[VarDecl],
    body: &[Stmt],
    draft: &mut Draft,
) -> Result<(), LowerFault>
    requires not_one { single_meant (type_tree first.now.shape) ≡ None }
    ensures ok { OnOk result
        (AddsBlock (called scope.now) (seen scope.now) (first.now ∷ rest.now) body.now draft.old draft.new) }
    ensures whole { OnOk result
        (left_out_block (called scope.now) (seen scope.now) (first.now ∷ rest.now) body.now ≡ None) }
    ensures fault { IfErr result
        (IsFault (left_out_block (called scope.now) (seen scope.now) (first.now ∷ rest.now) body.now) draft.new) }
{
    let Some(shape) = shape_meant(*draft.instrs.allocator(), &first.shape)? else {
        return Err(LowerFault::NotLowered { at: first.at });
    };
    let cell = start_list(&scope.values, &shape, &first.start, draft)?;
    behind(scope, first, &shape, cell, rest, body, draft)
}

/// Appends what stands behind a variable of a block, and sees it.
#[cycle(lower_stmt)]
fn behind(
    scope: &StmtScope,
    first: &VarDecl,
    shape: &Shape,
    cell: u32,
    rest: &[VarDecl],
    body: &[Stmt],
    draft: &mut Draft,
) -> Result<(), LowerFault>
    ensures ok { OnOk result
        (AddsBlock (called scope.now) (behind first.now (shape_view shape.now) cell scope.now)
        rest.now body.now draft.old draft.new) }
    ensures whole { OnOk result
        (left_out_block (called scope.now) (behind first.now (shape_view shape.now) cell scope.now)
        rest.now body.now ≡ None) }
    ensures fault { IfErr result
        (IsFault (left_out_block (called scope.now)
        (behind first.now (shape_view shape.now) cell scope.now) rest.now body.now) draft.new) }
{
    let frame = Frame {
        name: first.name.text.as_str(),
        shape,
        cell,
        outer: scope.values.frame,
    };
    let inner = scope.under(&frame);
    block(&inner, rest, body, draft)
}

/// Appends code that executes statements.
///
/// `names` holds the names that the statements use; the first of several that are the same is meant. The code
/// changes the cells of these names as the statements change the variables, each stored in its type. What stood in
/// the draft stays.
///
/// Code is made for assignments to variables of single values, to lists at any depth, and to their parts, be they single
/// values or lists, `if`, `while`, and `foreach` and blocks whose types are written without names, over the expressions
/// for which [`lower_expr`](lower_base::lower_expr) or, of lists, [`lower_list`](lower_base::lower_list) makes code. The
/// variables of a block may be lists at any depth. A `foreach` uses three cells more, or one if its bounds are written out
/// and its type holds them, a variable of a block one for each of its numbers, and a part of a list in lists one for each
/// of its places. What is stored in such a part or as a whole list uses one for each of its numbers, unless it is copied
/// from a name, beside those of its generators. All are added to the draft.
///
/// # Errors
///
/// `Memory` if an allocation was refused. `TooLong` if the draft has 2 to the power of 32 instructions.
/// `TooManyCells` if the numbers of the cells that are used don't fit; then all are taken. `NotLowered` with the offset
/// of the first part for which no code is made, as a call; of a `while` the body comes first.
pub fn lower_stmts(names: &[Named], body: &[Stmt], draft: &mut Draft) -> Result<(), LowerFault>
    requires below { AreBelow draft.old.cells (names_view names.now) }
    requires apart { NamesApart (names_view names.now) }
    requires typed { AreTyped (names_view names.now) }
    ensures lowered { OnOk result (AddsExecuted names.now (body_of body.now) draft.old draft.new) }
    ensures whole { OnOk result (AreWhole names.now (body_of body.now)) }
    ensures fault { IfErr result (IsFaultAmong names.now (body_of body.now) draft.new) }
{
    lower_all(&StmtScope::outermost(names, &[], &[]), body, draft)
}

/// Appends code that executes statements, which may call functions and procedures.
///
/// `names` holds the names that the statements use: those of locals, the innermost first, and then those of globals,
/// which procedures may change. `callees` holds the functions and `procedures` the procedures that may be called; the
/// first of several that are the same is meant. A call puts its arguments into the cells of the routine, each stored
/// in the type of its formal, and runs the routine after one turn. Beside what [`lower_stmts`] says, the code changes
/// cells of routines, and through them those of globals. What stood in the draft stays.
///
/// # Errors
///
/// As for [`lower_stmts`], but that a call is a part for which no code is made only if `callees` or `procedures`
/// doesn't have what it names with as many arguments.
pub fn lower_calling_stmts(
    names: &[Named],
    callees: &[Callee],
    procedures: &[ProcCallee],
    body: &[Stmt],
    draft: &mut Draft,
) -> Result<(), LowerFault>
    requires below { AreBelow draft.old.cells (names_view names.now) }
    requires typed { AreTyped (names_view names.now) }
    ensures lowered { OnOk result (AddsCalling callees.now procedures.now names.now
        (body_of body.now) draft.old draft.new) }
    ensures whole { OnOk result
        (AreWholeCalling callees.now procedures.now names.now (body_of body.now)) }
    ensures fault { IfErr result
        (IsFaultCalling callees.now procedures.now names.now (body_of body.now) draft.new) }
{
    lower_all(
        &StmtScope::outermost(names, callees, procedures),
        body,
        draft,
    )
}
