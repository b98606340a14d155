//! Procedures that may be called, with their routines.

ghost use Rattle.std.specs.Prelude.{◌≡◌, IfErr, OnOk, option_map};
ghost use Rattle.lower_base.specs.declared.fault.LowerFault.TheVariants.{Memory};
ghost use Rattle.lower_base.specs.Lowered.{IsPut};
ghost use Rattle.lower_base.specs.Parted.{number_of};
ghost use Rattle.lower_base.specs.PartView.{places_of};
ghost use Rattle.lower_stmt.specs.Procedures.{procedure_for, procedure_named, procedure_view};
ghost use Rattle.lower_stmt.specs.Procedures.{procedures_view};
ghost use Rattle.lower_stmt.specs.Stating.{run_code};

use cal_ast::Expr;
use code_ir::Instr;
use lower_base::{Draft, Formal, LowerFault, put, put_formals};

/// A procedure that may be called: its name, its routine, and where its arguments go.
#[derive(Drop)]
pub struct ProcCallee {
    pub name: String,
    /// The number of the routine, which leaves nothing on the stack.
    pub routine: u32,
    pub formals: Vec<Formal>,
}

/// The first of the procedures that has this name.
fn procedure_named<'a>(procedures: &'a [ProcCallee], text: &str) -> Option<&'a ProcCallee>
    ensures { option_map (λ x. procedure_view x.now) result
        ≡ procedure_named text.now (procedures_view procedures.entry.now) }
{
    let mut rest = procedures;
    'procedures: while let Some((first, others)) = rest.split_first() {
        if first.name.as_str() == text {
            return Some(first);
        }
        rest = others;
    }
    None
}

/// The procedure that a call means: it has this name, and as many formals as there are arguments.
pub(crate) fn procedure_for<'a>(
    procedures: &'a [ProcCallee],
    text: &str,
    args: &[Expr],
) -> Option<&'a ProcCallee>
    ensures { option_map (λ x. procedure_view x.now) result
        ≡ procedure_for text.now (number_of (places_of args.now))
        (procedures_view procedures.entry.now) }
{
    let callee = procedure_named(procedures, text)?;
    if callee.formals.len() == args.len() {
        Some(callee)
    } else {
        None
    }
}

/// Appends a turn, and the instructions that put the arguments into the cells of the formals and run the routine.
pub(crate) fn put_run(callee: &ProcCallee, draft: &mut Draft) -> Result<(), LowerFault>
    ensures added { OnOk result (IsPut (run_code (procedure_view callee.now)) draft.old draft.new) }
    ensures memory { IfErr result (λ fault. fault ≡ Memory) }
    ensures cells { draft.new.cells ≡ draft.old.cells }
{
    put(draft, Instr::Turn)?;
    put_formals(&callee.formals, draft)?;
    put(draft, Instr::Call(callee.routine))
}
