//! Functions that may be called, with their routines.

ghost use Rattle.std.specs.Prelude.{◌≡◌, IfErr, OnOk, option_map};
ghost use Rattle.lower_base.specs.declared.fault.LowerFault.TheVariants.{Memory};
ghost use Rattle.lower_base.specs.Coding.{call_code, formal_stores};
ghost use Rattle.lower_base.specs.Lowered.{IsPut};
ghost use Rattle.lower_base.specs.Parted.{number_of};
ghost use Rattle.lower_base.specs.PartView.{places_of};
ghost use Rattle.lower_base.specs.Callees.{function_for, function_named, function_view, functions_view};

use crate::draft::{Draft, put};
use crate::fault::LowerFault;
use cal_ast::Expr;
use code_ir::Instr;
use rvc_base::Scalar;

/// A function that may be called: its name, its routine, and where its arguments go.
#[derive(Drop)]
pub struct Callee {
    pub name: String,
    /// The number of the routine, which leaves the value on the stack.
    pub routine: u32,
    pub formals: Vec<Formal>,
    pub result: Scalar,
}

/// The cell of a formal, and the type in which an argument is stored there.
#[derive(Clone, Copy, Debug, PartialEq, Eq)]
pub struct Formal {
    pub cell: u32,
    pub kind: Scalar,
}

/// The first of the functions that has this name.
pub fn function_named<'a>(callees: &'a [Callee], text: &str) -> Option<&'a Callee>
    ensures { option_map (λ x. function_view x.now) result
        ≡ function_named text.now (functions_view callees.entry.now) }
{
    let mut rest = callees;
    'callees: while let Some((first, others)) = rest.split_first() {
        if first.name.as_str() == text {
            return Some(first);
        }
        rest = others;
    }
    None
}

/// The function that a call means: it has this name, and as many formals as there are arguments.
pub fn function_for<'a>(callees: &'a [Callee], text: &str, args: &[Expr]) -> Option<&'a Callee>
    ensures { option_map (λ x. function_view x.now) result
        ≡ function_for text.now (number_of (places_of args.now)) (functions_view callees.entry.now) }
{
    let callee = function_named(callees, text)?;
    if callee.formals.len() == args.len() {
        Some(callee)
    } else {
        None
    }
}

/// Appends a turn, and the instructions that put the arguments into the cells of the formals and run the routine.
pub fn put_call(callee: &Callee, draft: &mut Draft) -> Result<(), LowerFault>
    ensures added { OnOk result (IsPut (call_code (function_view callee.now)) draft.old draft.new) }
    ensures memory { IfErr result (λ fault. fault ≡ Memory) }
    ensures cells { draft.new.cells ≡ draft.old.cells }
{
    put(draft, Instr::Turn)?;
    put_formals(&callee.formals, draft)?;
    put(draft, Instr::Call(callee.routine))
}

/// Appends the instructions that put the arguments into the cells of the formals, the last one first.
pub fn put_formals(formals: &[Formal], draft: &mut Draft) -> Result<(), LowerFault>
    ensures added { OnOk result (IsPut (formal_stores formals.now) draft.old draft.new) }
    ensures memory { IfErr result (λ fault. fault ≡ Memory) }
    ensures cells { draft.new.cells ≡ draft.old.cells }
{
    let Some((first, rest)) = formals.split_first() else {
        return Ok(());
    };
    put_formals(rest, draft)?;
    put(draft, Instr::Store(first.cell, Some(first.kind)))
}
