//! Procedures as routines.

ghost use Rattle.std.specs.Prelude.{◌≡◌, ◌<◌, ◌^◌, [], length, IfErr, IfOk, None, OnOk};
ghost use Rattle.cal_model.specs.View.{proc_view};
ghost use Rattle.lower_base.specs.Growing.{IsFault};
ghost use Rattle.lower_stmt.specs.Proceeding.{AddsProcRoutine, IsFaultOfProc, IsWholeProc};
ghost use Rattle.lower_stmt.specs.ProcWords.{AddsProcBody, behind_all, left_out_of_proc};
ghost use Rattle.lower_stmt.specs.StmtSeen.{seen};

use crate::callees::ProcCallee;
use crate::scope::StmtScope;
use crate::stmts::lower_all;
use cal_model::{BoundLocal, BoundProc, Shape};
use code_ir::{Instr, Routine};
use expr_lower::{start_local, take_formals};
use lower_base::{Callee, Draft, Formal, Frame, LowerFault, Named, next_place, put};
use std::alloc::Global;

/// Appends the routine of a procedure, and answers how it is called.
///
/// `names` holds the names of the variables that the procedure uses, `callees` the functions and `procedures` the
/// procedures that it calls: their routines stand before it. Its formals, its locals and its statements have cells of
/// their own, which are added to the draft; the code changes no cells but those, the ones of `names` and the ones of
/// routines before it. What stood in the draft stays.
///
/// # Errors
///
/// `NotLowered` with the offset 0 if a formal is no single value or the sizes of a local's type aren't allowed, or if a
/// start of a local or the body has a part for which no code is made, with its offset. `TooLong` if the draft has 2 to the power of 32 instructions.
/// `TooManyCells` if the numbers of the cells that are used don't fit. `Memory` if memory runs out.
pub fn lower_procedure(
    alloc: Global,
    names: &[Named],
    callees: &[Callee],
    procedures: &[ProcCallee],
    p: &BoundProc,
    draft: &mut Draft,
) -> Result<ProcCallee, LowerFault>
    requires few { length draft.old.routines.items < 2 ^ 32 }
    ensures routine { IfOk result (AddsProcRoutine names.now callees.now procedures.now
        (proc_view p.now) draft.old draft.new) }
    ensures whole { IfOk result
        (λ callee. IsWholeProc names.now callees.now procedures.now (proc_view p.now)) }
    ensures fault { IfErr result
        (IsFaultOfProc names.now callees.now procedures.now (proc_view p.now) draft.new) }
{
    let routine = draft.routines.len() as u32;
    let start = next_place(draft)?;
    let mut formals = Vec::new(alloc);
    take_formals(&p.formals, &mut formals, draft)?;
    in_formals(
        &StmtScope::outermost(names, callees, procedures),
        &p.formals,
        &formals,
        p,
        draft,
    )?;
    draft.routines.push(Routine { start, results: 0 })?;
    Ok(ProcCallee {
        name: p.name.clone()?,
        routine,
        formals,
    })
}

/// Appends the code of a procedure, which sees its formals.
fn in_formals(
    scope: &StmtScope,
    formals: &[BoundLocal],
    cells: &[Formal],
    p: &BoundProc,
    draft: &mut Draft,
) -> Result<(), LowerFault>
    ensures ok { OnOk result (AddsProcBody scope.now (behind_all scope.now formals.now cells.now)
        p.now p.now.locals.items draft.old draft.new) }
    ensures whole { OnOk result (left_out_of_proc scope.now
        (behind_all scope.now formals.now cells.now) p.now p.now.locals.items ≡ None) }
    ensures fault { IfErr result (IsFault (left_out_of_proc scope.now
        (behind_all scope.now formals.now cells.now) p.now p.now.locals.items) draft.new) }
{
    let Some((first, rest)) = formals.split_first() else {
        return in_locals(scope, &p.locals, p, draft);
    };
    let Some((formal, others)) = cells.split_first() else {
        return in_locals(scope, &p.locals, p, draft);
    };
    let shape = Shape::Scalar(formal.kind);
    let frame = Frame {
        name: first.name.as_str(),
        shape: &shape,
        cell: formal.cell,
        outer: scope.values.frame,
    };
    let inner = scope.under(&frame);
    in_formals(&inner, rest, others, p, draft)
}

/// Appends the locals of a procedure, each of which is seen by those behind it, and its statements.
fn in_locals(
    scope: &StmtScope,
    locals: &[BoundLocal],
    p: &BoundProc,
    draft: &mut Draft,
) -> Result<(), LowerFault>
    ensures ok { OnOk result
        (AddsProcBody scope.now (seen scope.now) p.now locals.now draft.old draft.new) }
    ensures whole { OnOk result
        (left_out_of_proc scope.now (seen scope.now) p.now locals.now ≡ None) }
    ensures fault { IfErr result
        (IsFault (left_out_of_proc scope.now (seen scope.now) p.now locals.now) draft.new) }
{
    let Some((first, rest)) = locals.split_first() else {
        return come_back(scope, p, draft);
    };
    let cell = start_local(&scope.values, first, draft)?;
    let frame = Frame {
        name: first.name.as_str(),
        shape: &first.shape,
        cell,
        outer: scope.values.frame,
    };
    let inner = scope.under(&frame);
    in_locals(&inner, rest, p, draft)
}

/// Appends the statements of a procedure, and the return.
fn come_back(scope: &StmtScope, p: &BoundProc, draft: &mut Draft) -> Result<(), LowerFault>
    ensures ok { OnOk result
        (AddsProcBody scope.now (seen scope.now) p.now [] draft.old draft.new) }
    ensures whole { OnOk result (left_out_of_proc scope.now (seen scope.now) p.now [] ≡ None) }
    ensures fault { IfErr result
        (IsFault (left_out_of_proc scope.now (seen scope.now) p.now []) draft.new) }
{
    lower_all(scope, &p.body, draft)?;
    put(draft, Instr::Return)
}
