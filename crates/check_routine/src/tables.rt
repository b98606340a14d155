//! The functions and procedures among the members of an actor or a unit, in the order of the text.

ghost use Rattle.std.specs.Prelude.{ℕ, map};
ghost use Rattle.cal_model.specs.View.{proc_view};
ghost use Rattle.const_env.specs.Counting.{names_view};
ghost use Rattle.cal_check.specs.Actors.{formals_broken, funs_broken, funs_in, heads_broken, procs_broken, procs_in};
ghost use Rattle.cal_check.specs.Violations.{said};
ghost use Rattle.check_stmt.specs.Judging.{Checks};
ghost use Rattle.check_routine.specs.Heads.{members_tree};
ghost use Rattle.check_routine.specs.Judging.{ChecksIn};

use crate::formal::formals;
use crate::function::{check_function, head};
use crate::procedure::check_procedure;
use cal_ast::Member;
use check_stmt::Procs;
use const_eval::{KindFault, Names};

/// The heads of the functions among members.
///
/// # Errors
///
/// `Broken` if a head breaks a rule: one that is broken, and its place. `Memory` if memory runs out.
pub fn check_heads(names: &Names, members: &[Member]) -> Result<(), KindFault>
    ensures { (file : ℕ) → ChecksIn file result
        (heads_broken (funs_in file (members_tree members.now)) (names_view names.now)) }
{
    let mut rest = members;
    'members: while let Some((first, others)) = rest.split_first() {
        if let Member::Function(f) = first {
            head(names, f)?;
        }
        rest = others;
    }
    Ok(())
}

/// The formals of the procedures among members.
///
/// # Errors
///
/// `Broken` if a formal breaks a rule: one that is broken, and its place. `Memory` if memory runs out.
pub fn check_formals(names: &Names, members: &[Member]) -> Result<(), KindFault>
    ensures { Checks result
        (formals_broken (procs_in (members_tree members.now)) (names_view names.now)) }
{
    let mut rest = members;
    'members: while let Some((first, others)) = rest.split_first() {
        if let Member::Procedure(p) = first {
            formals(names, &p.formals)?;
        }
        rest = others;
    }
    Ok(())
}

/// What is inside the functions among members, as [`check_function`] judges each.
///
/// # Errors
///
/// As those of [`check_function`].
#[tactic(auto, using(crate::proofs::Found::refuses_in))]
pub fn check_functions(names: &Names, members: &[Member]) -> Result<(), KindFault>
    ensures { (file : ℕ) → ChecksIn file result
        (funs_broken (funs_in file (members_tree members.now)) (names_view names.now)) }
{
    let mut rest = members;
    'members: while let Some((first, others)) = rest.split_first() {
        if let Member::Function(f) = first {
            check_function(names, f, false)?;
        }
        rest = others;
    }
    Ok(())
}

/// What is inside the procedures among members, which may call these procedures, as [`check_procedure`] judges each. What
/// isn't constant is passed over if `passes`.
///
/// # Errors
///
/// As those of [`check_procedure`].
#[tactic(auto, using(check_stmt::proofs::Said::said_none, check_stmt::proofs::Said::said_on, check_stmt::proofs::Said::said_next))]
pub fn check_procedures(
    names: &Names,
    procs: &Procs,
    members: &[Member],
    passes: bool,
) -> Result<(), KindFault>
    ensures { Checks result (said passes (procs_broken (procs_in (members_tree members.now))
        (map proc_view procs.now) (names_view names.now))) }
{
    let mut rest = members;
    'members: while let Some((first, others)) = rest.split_first() {
        if let Member::Procedure(p) = first {
            check_procedure(names, procs, p, passes)?;
        }
        rest = others;
    }
    Ok(())
}
