//! Rules that are said though something else isn't constant.

ghost use Rattle.std.specs.Prelude.{◌≡◌, ◌≤◌, ◌∷◌, [], List, length};
ghost use Rattle.cal_ast.specs.Tree as tree;
ghost use Rattle.cal_ast.specs.Tree.{Tree};
ghost use Rattle.cal_ast.specs.View.{function_tree, member_tree, port_tree, procedure_tree};
ghost use Rattle.cal_check.specs.Actors.{all_funs, formals_broken, heads_broken, procs_in};
ghost use Rattle.cal_check.specs.Ports.{each_port, port_judged};
ghost use Rattle.cal_check.specs.Routines.{head_judged};
ghost use Rattle.cal_check.specs.Variables.{found_in};
ghost use Rattle.cal_check.specs.Violations.{Violation, all_broken, broken};
ghost use Rattle.const_env.specs.Counting.{names_view};
ghost use Rattle.check_member.specs.Parts.{members_tree};
ghost use Rattle.check_functions.specs.Known.{fun_decls};
ghost use Rattle.check_stmt.specs.Judging.{Checks, Refuses};
ghost use Rattle.check_given.specs.Causes.{IsCause};
ghost use Rattle.check_variable.specs.Views.{ports_tree};
ghost use Rattle.check_actor.specs.Phases.{header_over, heads_over};
ghost use Rattle.check_actor.specs.Sifting.{IsFault, Sifts, SiftsOn, bare_over, lacks};
ghost use Rattle.check_actor.specs.Sources.{source_in};

use cal_ast::{Member, PortDecl, Procedure};
use cal_imports::Scope;
use check_build_routine::{fun_of, proc_of};
use check_functions::DeclaredFun;
use check_member::{MemberFault, check_ports};
use check_variable::port;
use const_eval::{KindFault, Names};
use rvc_base::{Front, Place, Refusal, Rule};

/// Passes over what isn't constant.
#[tactic(auto, using(crate::proofs::Sifted::passes, crate::proofs::Causes::found_of))]
fn passed(file: u32, fault: KindFault) -> Result<(), Front>
    ensures { (vs : List Violation) → length vs ≤ 1 → Refuses fault vs → Sifts result (found_in file vs) }
{
    match fault {
        KindFault::Broken { rule, at } => {
            if rule.0 == Rule::NOT_CONSTANT.0 {
                return Ok(());
            }
            let place = Place { file, offset: at };
            Err(Front::Refused(Refusal { rule, place }))
        }
        KindFault::Memory => Err(Front::Memory),
    }
}

/// The head of a function.
#[tactic(auto, using(crate::proofs::Sifted::head_fine, crate::proofs::Heads::head_breaks))]
pub(crate) fn check_head(names: &Names, f: DeclaredFun) -> Result<(), KindFault>
    ensures { Checks result (broken (head_judged (function_tree f.entry.decl.now) (names_view names.now))) }
{
    let _fun = fun_of(names, f.name, f.decl)?;
    Ok(())
}

/// The head of a function, unless something isn't constant there.
pub(crate) fn sift_head(names: &Names, f: DeclaredFun) -> Result<(), Front>
    ensures { Sifts result (found_in f.entry.file
        (broken (head_judged (function_tree f.entry.decl.now) (names_view names.now)))) }
{
    match check_head(names, f) {
        Ok(()) => Ok(()),
        Err(fault) => passed(f.file, fault),
    }
}

/// The heads of functions.
fn sift_heads(names: &Names, funs: &[DeclaredFun]) -> Result<(), Front>
    ensures { Sifts result (heads_broken (fun_decls funs.now) (names_view names.now)) }
{
    for f in funs {
        sift_head(names, *f)?;
    }
    Ok(())
}

/// The formals of a procedure.
#[tactic(auto, using(crate::proofs::Sifted::formals_fine, crate::proofs::Heads::formals_break))]
fn check_formals(names: &Names, p: &Procedure) -> Result<(), KindFault>
    ensures { Checks result (formals_broken (procedure_tree p.now ∷ []) (names_view names.now)) }
{
    let _proc = proc_of(names, p)?;
    Ok(())
}

/// The formals of a procedure, unless something isn't constant there.
fn sift_formals(names: &Names, file: u32, p: &Procedure) -> Result<(), Front>
    ensures { Sifts result (found_in file (formals_broken (procedure_tree p.now ∷ []) (names_view names.now))) }
{
    match check_formals(names, p) {
        Ok(()) => Ok(()),
        Err(fault) => passed(file, fault),
    }
}

/// The formals of a member, if it is a procedure.
fn sift_member(names: &Names, file: u32, member: &Member) -> Result<(), Front>
    ensures { (more : Tree) → SiftsOn result (found_in file (formals_broken (procs_in more) (names_view names.now)))
        (found_in file (formals_broken (procs_in (tree.cons (member_tree member.now) more)) (names_view names.now))) }
{
    match member {
        Member::Procedure(p) => sift_formals(names, file, p),
        Member::Var(_) => Ok(()),
        Member::Function(_) => Ok(()),
        Member::Action(_) => Ok(()),
        Member::Schedule(_) => Ok(()),
        Member::Priority(_) => Ok(()),
    }
}

/// The formals of procedures.
fn sift_members(names: &Names, file: u32, members: &[Member]) -> Result<(), Front>
    ensures { Sifts result (found_in file
        (formals_broken (procs_in (members_tree members.now)) (names_view names.now))) }
{
    let mut rest = members;
    'members: while let Some((first, others)) = rest.split_first() {
        sift_member(names, file, first)?;
        rest = others;
    }
    Ok(())
}

/// The heads of functions and procedures.
pub(crate) fn sift_routines(names: &Names, funs: &[DeclaredFun], scope: &Scope) -> Result<(), Front>
    requires { fun_decls funs.now ≡ all_funs (source_in scope.now) }
    ensures { Sifts result (heads_over (source_in scope.now) (names_view names.now)) }
{
    sift_heads(names, funs)?;
    sift_members(names, scope.file, &scope.actor.members)
}

/// A port of a header.
#[tactic(auto, using(crate::proofs::Sifted::port_fine, check_stmt::proofs::Checked::refuses_broken))]
fn check_port(names: &Names, p: &PortDecl) -> Result<(), KindFault>
    ensures { Checks result (broken (port_judged (port_tree p.now) (names_view names.now))) }
{
    let _port = port(names, p)?;
    Ok(())
}

/// A port of a header, unless something isn't constant there.
fn sift_port(names: &Names, file: u32, p: &PortDecl) -> Result<(), Front>
    ensures { (more : Tree) → SiftsOn result (found_in file (all_broken (each_port more (names_view names.now))))
        (found_in file (all_broken (each_port (tree.cons (port_tree p.now) more) (names_view names.now)))) }
{
    match check_port(names, p) {
        Ok(()) => Ok(()),
        Err(fault) => passed(file, fault),
    }
}

/// The ports of one direction.
fn sift_ports(names: &Names, file: u32, ports: &[PortDecl]) -> Result<(), Front>
    ensures { Sifts result (found_in file (all_broken (each_port (ports_tree ports.now) (names_view names.now)))) }
{
    let mut rest = ports;
    'ports: while let Some((first, others)) = rest.split_first() {
        sift_port(names, file, first)?;
        rest = others;
    }
    Ok(())
}

/// Names of ports that stand twice, and too many ports.
fn sift_bare(names: &Names, scope: &Scope) -> Result<(), Front>
    ensures { Sifts result (bare_over (source_in scope.now)) }
{
    let actor = &scope.actor;
    match check_ports(names.alloc, &actor.ins, &actor.outs, actor.at) {
        Ok(()) => Ok(()),
        Err(MemberFault::Broken { rule, at }) => {
            let place = Place {
                file: scope.file,
                offset: at,
            };
            Err(Front::Refused(Refusal { rule, place }))
        }
        Err(MemberFault::Memory) => Err(Front::Memory),
    }
}

/// A header.
pub(crate) fn sift_header(names: &Names, scope: &Scope) -> Result<(), Front>
    ensures { Sifts result (header_over (source_in scope.now) (names_view names.now)) }
{
    sift_ports(names, scope.file, &scope.actor.ins)?;
    sift_ports(names, scope.file, &scope.actor.outs)?;
    sift_bare(names, scope)
}

// ---- faults

/// Whether a fault is that something isn't constant.
pub(crate) fn lacks(fault: Front) -> bool
    ensures { result ≡ lacks fault }
{
    match fault {
        Front::Refused(r) => r.rule.0 == Rule::NOT_CONSTANT.0,
        Front::Memory => false,
    }
}

/// A fault of heads, or one that is said whatever else is broken.
pub(crate) fn routines_fault(
    names: &Names,
    funs: &[DeclaredFun],
    scope: &Scope,
    fault: Front,
) -> Front
    requires { fun_decls funs.now ≡ all_funs (source_in scope.now) }
    ensures { IsCause fault (heads_over (source_in scope.now) (names_view names.now))
        → IsFault result (heads_over (source_in scope.now) (names_view names.now)) }
{
    if !lacks(fault) {
        return fault;
    }
    match sift_routines(names, funs, scope) {
        Ok(()) => fault,
        Err(other) => other,
    }
}

/// A fault of a header, or one that is said whatever else is broken.
pub(crate) fn header_fault(names: &Names, scope: &Scope, fault: Front) -> Front
    ensures { IsCause fault (header_over (source_in scope.now) (names_view names.now))
        → IsFault result (header_over (source_in scope.now) (names_view names.now)) }
{
    if !lacks(fault) {
        return fault;
    }
    match sift_header(names, scope) {
        Ok(()) => fault,
        Err(other) => other,
    }
}
