//! What is inside functions.
#![tactic(auto, using(crate::proofs::Causes::cause_in_first))]

ghost use Rattle.cal_ast.specs.View.{function_tree};
ghost use Rattle.cal_check.specs.Actors.{funs_broken};
ghost use Rattle.cal_check.specs.Routines.{fun_broken};
ghost use Rattle.cal_check.specs.Variables.{found_in};
ghost use Rattle.const_env.specs.Counting.{names_view};
ghost use Rattle.check_functions.specs.Known.{fun_decls};
ghost use Rattle.check_given.specs.Causes.{Finds};

use crate::fault::in_file;
use check_functions::DeclaredFun;
use check_routine::check_function;
use const_eval::Names;
use rvc_base::Front;

/// What is inside a function, in its file.
fn check_body(names: &Names, f: DeclaredFun) -> Result<(), Front>
    ensures { Finds result (found_in f.entry.file
        (fun_broken (function_tree f.entry.decl.now) (names_view names.now))) }
{
    match check_function(names, f.decl, false) {
        Ok(()) => Ok(()),
        Err(fault) => Err(in_file(f.file, fault)),
    }
}

/// What is inside functions, of the actor's file and of others, as [`check_function`] judges each.
///
/// # Errors
///
/// `Refused` if what is inside breaks a rule: one of those that are broken, with its place. `Memory` if memory runs out.
pub fn check_bodies(names: &Names, funs: &[DeclaredFun]) -> Result<(), Front>
    ensures { Finds result (funs_broken (fun_decls funs.now) (names_view names.now)) }
{
    for f in funs {
        check_body(names, *f)?;
    }
    Ok(())
}
