//! Functions and procedures with their heads.
#![tactic(auto, using(crate::proofs::Heads::behind_none, crate::proofs::Heads::behind_all, crate::proofs::Heads::built_none, crate::proofs::Heads::adds_proc, crate::proofs::Heads::formals_break))]

ghost use Rattle.std.specs.Prelude.{◌≡◌, IfErr, OnOk, map};
ghost use Rattle.cal_ast.specs.Tree as tree;
ghost use Rattle.cal_ast.specs.Tree.{Tree};
ghost use Rattle.cal_ast.specs.View.{member_tree, procedure_tree};
ghost use Rattle.cal_check.specs.Actors.{formals_broken, procs_in, procs_of};
ghost use Rattle.cal_check.specs.Violations.{all_fine};
ghost use Rattle.cal_model.specs.View.{fun_view, proc_view};
ghost use Rattle.const_env.specs.Counting.{names_view};
ghost use Rattle.check_member.specs.Parts.{members_tree};
ghost use Rattle.check_stmt.specs.Judging.{Refuses};
ghost use Rattle.check_variable.specs.Faults.{behind};
ghost use Rattle.check_functions.specs.Known.{fun_decl, fun_decls};
ghost use Rattle.check_actor.specs.Checking.{AddsFun, AddsProc, BuildsFuns, BuildsProcs, KeepsFun};

use crate::fault::in_file;
use cal_ast::{Member, Procedure};
use cal_model::BoundFun;
use check_build_routine::{fun_of, proc_of};
use check_functions::DeclaredFun;
use check_stmt::Procs;
use const_eval::{KindFault, Names};
use rvc_base::Front;

/// Adds what a function is, if its head breaks no rule.
fn add_function(found: &mut Vec<BoundFun>, names: &Names, f: DeclaredFun) -> Result<(), Front>
    ensures { AddsFun result (fun_decl f.entry) (names_view names.now) (map fun_view found.old.items)
        (map fun_view found.new.items) }
{
    match fun_of(names, f.name, f.decl) {
        Ok(fun) => keep_function(found, fun),
        Err(fault) => Err(in_file(f.file, fault)),
    }
}

/// Adds a function.
fn keep_function(found: &mut Vec<BoundFun>, fun: BoundFun) -> Result<(), Front>
    ensures { KeepsFun result (fun_view fun) (map fun_view found.old.items) (map fun_view found.new.items) }
{
    match found.push(fun) {
        Ok(()) => Ok(()),
        Err(_) => Err(Front::Memory),
    }
}

/// What functions are whose heads break no rule.
///
/// # Errors
///
/// `Refused` if a head breaks a rule: one of those that are broken, with its place. `Memory` if memory runs out.
pub fn functions(names: &Names, funs: &[DeclaredFun]) -> Result<Vec<BoundFun>, Front>
    ensures { BuildsFuns result (fun_decls funs.now) (names_view names.now) }
{
    let mut found = Vec::new(names.alloc);
    for f in funs {
        add_function(&mut found, names, *f)?;
    }
    Ok(found)
}

/// Adds what a procedure is, if its formals break no rule.
fn add_procedure(found: &mut Procs, names: &Names, p: &Procedure) -> Result<(), KindFault>
    ensures { AddsProc result (procedure_tree p.now) (names_view names.now) (map proc_view found.old)
        (map proc_view found.new) }
{
    let proc = proc_of(names, p)?;
    found.add(proc)?;
    Ok(())
}

/// Adds what a member is, if it is a procedure.
fn add_member(found: &mut Procs, names: &Names, member: &Member) -> Result<(), KindFault>
    ensures added { OnOk result ((more : Tree)
        → behind (map proc_view found.new) (all_fine (procs_of (procs_in more) (names_view names.now)))
        ≡ behind (map proc_view found.old)
        (all_fine (procs_of (procs_in (tree.cons (member_tree member.now) more)) (names_view names.now)))) }
    ensures fine { OnOk result ((more : Tree)
        → formals_broken (procs_in more) (names_view names.now)
        ≡ formals_broken (procs_in (tree.cons (member_tree member.now) more)) (names_view names.now)) }
    ensures broken { IfErr result (λ fault. (more : Tree) → Refuses fault
        (formals_broken (procs_in (tree.cons (member_tree member.now) more)) (names_view names.now))) }
{
    match member {
        Member::Procedure(p) => add_procedure(found, names, p),
        _ => Ok(()),
    }
}

/// What the procedures among members are whose formals break no rule, in the order of the text.
///
/// # Errors
///
/// `Broken` if a formal breaks a rule: one of those that are broken, with its place. `Memory` if memory runs out.
pub fn procedures(names: &Names, members: &[Member]) -> Result<Procs, KindFault>
    ensures { BuildsProcs result (procs_in (members_tree members.now)) (names_view names.now) }
{
    let mut found = Procs::new(names.alloc);
    let mut rest = members;
    'members: while let Some((first, others)) = rest.split_first() {
        add_member(&mut found, names, first)?;
        rest = others;
    }
    Ok(found)
}
