//! Functions as routines: the code of each stands once, and calls go to it.

ghost use Rattle.std.specs.Prelude.{◌≡◌, ◌<◌, ◌^◌, IfErr, IfOk, None, OnOk, [], length, map};
ghost use Rattle.cal_model.specs.View.{fun_view, local_view};
ghost use Rattle.lower_base.specs.Growing.{IsFault};
ghost use Rattle.lower_base.specs.RoutineWords.{AddsFunBody, HasFormalCells};
ghost use Rattle.lower_base.specs.RoutineWords.{behind_all, left_out_of_body};
ghost use Rattle.lower_base.specs.Routining.{AddsRoutine, IsFaultOfFun, IsWholeFun};
ghost use Rattle.lower_base.specs.Routining.{left_out_formals};
ghost use Rattle.lower_base.specs.Seen.{seen};

use crate::exprs::lower;
use crate::starts::start_local;
use cal_model::{BoundFun, BoundLocal, Shape};
use code_ir::{Instr, Routine};
use lower_base::{
    Callee, Draft, Formal, Frame, LowerFault, Named, Scope, next_place, put_all, single, take_cell,
};
use std::alloc::Global;

/// Appends the routine of a function, and answers how it is called.
///
/// `names` holds the names of the variables that the function uses, and `callees` the functions that it calls: their
/// routines stand before it. Its formals, its locals and its value have cells of their own, which are added to the
/// draft; the code changes no cells but those and the ones of routines before it. What stood in the draft stays.
///
/// # Errors
///
/// `NotLowered` with the offset 0 if a formal is no single value or the sizes of a local's type aren't allowed, or if a
/// start of a local or the body has a part for which no code is made, with its offset. `TooLong` if the draft has 2 to
/// the power of 32 instructions.
/// `TooManyCells` if the numbers of the cells that are used don't fit. `Memory` if memory runs out.
pub fn lower_function(
    alloc: Global,
    names: &[Named],
    callees: &[Callee],
    f: &BoundFun,
    draft: &mut Draft,
) -> Result<Callee, LowerFault>
    requires few { length draft.old.routines.items < 2 ^ 32 }
    ensures routine { IfOk result
        (AddsRoutine names.now callees.now (fun_view f.now) draft.old draft.new) }
    ensures whole { IfOk result (λ callee. IsWholeFun names.now callees.now (fun_view f.now)) }
    ensures fault { IfErr result
        (IsFaultOfFun names.now callees.now (fun_view f.now) draft.new) }
{
    let routine = draft.routines.len() as u32;
    let start = next_place(draft)?;
    let mut formals = Vec::new(alloc);
    take_formals(&f.formals, &mut formals, draft)?;
    in_formals(
        &Scope::outermost(names, callees),
        &f.formals,
        &formals,
        f,
        draft,
    )?;
    draft.routines.push(Routine { start, results: 1 })?;
    Ok(Callee {
        name: f.name.clone()?,
        routine,
        formals,
        result: f.result,
    })
}

/// Takes a cell for each formal.
pub fn take_formals(
    formals: &[BoundLocal],
    cells: &mut Vec<Formal>,
    draft: &mut Draft,
) -> Result<(), LowerFault>
    ensures taken { OnOk result
        (HasFormalCells (map local_view formals.now) cells.old.items cells.new.items draft.old draft.new) }
    ensures whole { OnOk result (left_out_formals (map local_view formals.now) ≡ None) }
    ensures fault { IfErr result
        (IsFault (left_out_formals (map local_view formals.now)) draft.new) }
{
    let Some((first, rest)) = formals.split_first() else {
        return Ok(());
    };
    let Some(kind) = single(&first.shape) else {
        return Err(LowerFault::NotLowered { at: 0 });
    };
    let cell = take_cell(draft)?;
    cells.push(Formal { cell, kind })?;
    take_formals(rest, cells, draft)
}

/// Appends the code of a function, which sees its formals.
fn in_formals(
    scope: &Scope,
    formals: &[BoundLocal],
    cells: &[Formal],
    f: &BoundFun,
    draft: &mut Draft,
) -> Result<(), LowerFault>
    ensures ok { OnOk result (AddsFunBody scope.now (behind_all scope.now formals.now cells.now)
        f.now f.now.locals.items draft.old draft.new) }
    ensures whole { OnOk result (left_out_of_body scope.now
        (behind_all scope.now formals.now cells.now) f.now f.now.locals.items ≡ None) }
    ensures fault { IfErr result (IsFault (left_out_of_body scope.now
        (behind_all scope.now formals.now cells.now) f.now f.now.locals.items) draft.new) }
{
    let Some((first, rest)) = formals.split_first() else {
        return in_locals(scope, &f.locals, f, draft);
    };
    let Some((formal, others)) = cells.split_first() else {
        return in_locals(scope, &f.locals, f, draft);
    };
    let shape = Shape::Scalar(formal.kind);
    let frame = Frame {
        name: first.name.as_str(),
        shape: &shape,
        cell: formal.cell,
        outer: scope.frame,
    };
    let inner = scope.under(&frame);
    in_formals(&inner, rest, others, f, draft)
}

/// Appends the locals of a function, each of which is seen by those behind it, and its body.
fn in_locals(
    scope: &Scope,
    locals: &[BoundLocal],
    f: &BoundFun,
    draft: &mut Draft,
) -> Result<(), LowerFault>
    ensures ok { OnOk result
        (AddsFunBody scope.now (seen scope.now) f.now locals.now draft.old draft.new) }
    ensures whole { OnOk result
        (left_out_of_body scope.now (seen scope.now) f.now locals.now ≡ None) }
    ensures fault { IfErr result
        (IsFault (left_out_of_body scope.now (seen scope.now) f.now locals.now) draft.new) }
{
    let Some((first, rest)) = locals.split_first() else {
        return give_back(scope, f, draft);
    };
    let cell = start_local(scope, first, draft)?;
    let frame = Frame {
        name: first.name.as_str(),
        shape: &first.shape,
        cell,
        outer: scope.frame,
    };
    let inner = scope.under(&frame);
    in_locals(&inner, rest, f, draft)
}

/// Appends the body of a function: its value, which goes through a cell to be stored in its type, and the return.
fn give_back(scope: &Scope, f: &BoundFun, draft: &mut Draft) -> Result<(), LowerFault>
    ensures ok { OnOk result
        (AddsFunBody scope.now (seen scope.now) f.now [] draft.old draft.new) }
    ensures whole { OnOk result
        (left_out_of_body scope.now (seen scope.now) f.now [] ≡ None) }
    ensures fault { IfErr result
        (IsFault (left_out_of_body scope.now (seen scope.now) f.now []) draft.new) }
{
    let cell = take_cell(draft)?;
    lower(scope, &f.body, draft)?;
    put_all(
        draft,
        &[
            Instr::Store(cell, Some(f.result)),
            Instr::Load(cell),
            Instr::Return,
        ],
    )
}
