//! What functions break of themselves.

ghost use Rattle.std.specs.Prelude.{◌≡◌, true};
ghost use Rattle.cal_ast.specs.View.{function_tree};
ghost use Rattle.cal_check.specs.Actors.{heads_broken};
ghost use Rattle.cal_check.specs.Routines.{head_judged};
ghost use Rattle.cal_check.specs.Variables.{found_in};
ghost use Rattle.cal_check.specs.Violations.{broken};
ghost use Rattle.const_env.specs.Counting.{names_view};
ghost use Rattle.check_functions.specs.Known.{fun_decl, fun_decls};
ghost use Rattle.check_actor.specs.Functions.{fun_found};
ghost use Rattle.check_actor.specs.Own.{FindsOwn, FindsOwnOf, LacksIn, TellsBehind, TellsFunctions, TellsHeads, lacks_name};
ghost use Rattle.check_actor.specs.Sifting.{Sifts};

use crate::others::sift_body;
use crate::said::{inconstant, is_not_constant};
use crate::sifting::{check_head, sift_head};
use check_functions::DeclaredFun;
use const_eval::{KindFault, Names};
use rvc_base::{Front, Memory, Place, Refusal, Rule};

/// The head of a function and what is inside, unless something isn't constant there.
fn sift_function(names: &Names, f: DeclaredFun) -> Result<(), Front>
    ensures { Sifts result (fun_found (fun_decl f.entry) (names_view names.now)) }
{
    sift_head(names, f)?;
    sift_body(names, f)
}

/// Whether a fault is that a name has no kind.
fn lacks_name(fault: Front) -> bool
    ensures { result ≡ lacks_name fault }
{
    match fault {
        Front::Refused(r) => r.rule.0 == Rule::UNKNOWN_NAME.0,
        Front::Memory => false,
    }
}

/// What a function breaks of itself. Nothing is said of one in which a name has no kind.
fn check_own(names: &Names, f: DeclaredFun) -> Result<(), Front>
    ensures { FindsOwnOf result (fun_decl f.entry) (names_view names.now) }
{
    match sift_function(names, f) {
        Ok(()) => Ok(()),
        Err(fault) => {
            if lacks_name(fault) {
                return Ok(());
            }
            Err(fault)
        }
    }
}

/// What functions break of themselves.
fn check_all_own(names: &Names, funs: &[DeclaredFun]) -> Result<(), Front>
    ensures { FindsOwn result (fun_decls funs.now) (names_view names.now) }
{
    for f in funs {
        check_own(names, *f)?;
    }
    Ok(())
}

/// What is said of a refusal of an actor with these functions, over the names that they see: what they break of themselves,
/// since the refusal may follow from it, and else the refusal.
fn first_of(names: &Names, funs: &[DeclaredFun], refusal: Refusal) -> Front
    ensures { TellsFunctions (fun_decls funs.now) (names_view names.now) (Front.Refused refusal) result }
{
    match check_all_own(names, funs) {
        Ok(()) => Front::Refused(refusal),
        Err(other) => other,
    }
}

/// The same of a fault.
pub(crate) fn functions_first(names: &Names, funs: &[DeclaredFun], fault: Front) -> Front
    ensures { TellsFunctions (fun_decls funs.now) (names_view names.now) fault result }
{
    match fault {
        Front::Refused(refusal) => first_of(names, funs, refusal),
        Front::Memory => Front::Memory,
    }
}

/// Where a head isn't constant.
fn head_lacks(names: &Names, f: DeclaredFun) -> Result<Option<Place>, Memory>
    ensures { LacksIn result (found_in f.entry.file
        (broken (head_judged (function_tree f.entry.decl.now) (names_view names.now)))) }
{
    match check_head(names, f) {
        Ok(()) => Ok(None),
        Err(KindFault::Broken { rule, at }) => {
            if is_not_constant(rule) {
                let file = f.file;
                return Ok(Some(Place { file, offset: at }));
            }
            Ok(None)
        }
        Err(KindFault::Memory) => Err(Memory),
    }
}

/// Where the first head of these functions isn't constant.
fn first_head(names: &Names, funs: &[DeclaredFun]) -> Result<Option<Place>, Memory>
    ensures { LacksIn result (heads_broken (fun_decls funs.now) (names_view names.now)) }
{
    for f in funs {
        let lacks = head_lacks(names, *f)?;
        if let Some(place) = lacks {
            return Ok(Some(place));
        }
    }
    Ok(None)
}

/// What is said where a name has no kind: that the first head isn't constant, if one isn't.
fn unnamed(names: &Names, funs: &[DeclaredFun], refusal: Refusal) -> Front
    requires { lacks_name (Front.Refused refusal) ≡ true }
    ensures { TellsHeads (heads_broken (fun_decls funs.now) (names_view names.now)) (Front.Refused refusal) result }
{
    match first_head(names, funs) {
        Ok(Some(place)) => inconstant(place),
        Ok(None) => Front::Refused(refusal),
        Err(Memory) => Front::Memory,
    }
}

/// What is said of a fault of an actor with these functions. All names are declared, so if one has no kind, that follows from
/// a head that isn't constant, which is said in its place.
fn heads_first(names: &Names, funs: &[DeclaredFun], fault: Front) -> Front
    ensures { TellsHeads (heads_broken (fun_decls funs.now) (names_view names.now)) fault result }
{
    match fault {
        Front::Refused(refusal) => {
            if lacks_name(Front::Refused(refusal)) {
                return unnamed(names, funs, refusal);
            }
            Front::Refused(refusal)
        }
        Front::Memory => Front::Memory,
    }
}

/// What is said of a fault behind the variables of an actor with these functions.
pub(crate) fn said_behind(names: &Names, funs: &[DeclaredFun], fault: Front) -> Front
    ensures { TellsBehind (fun_decls funs.now) (names_view names.now) fault result }
{
    functions_first(names, funs, heads_first(names, funs, fault))
}
