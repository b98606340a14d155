//! The names that a file's own declarations declare.
#![tactic(auto, using(crate::proofs::Judged::breaks_on))]

ghost use Rattle.std.specs.Prelude.{◌≡◌, [], ◌++◌, IfOk, string_bytes};
ghost use Rattle.cal_ast.specs.View.{member_tree, param_tree};
ghost use Rattle.cal_scope.specs.Asked.{members_tree, params_tree};
ghost use Rattle.cal_scope.specs.Globals.{names_of_actor, with_all_declared, with_declared, with_named};
ghost use Rattle.cal_scope.specs.Judging.{Judges};

use crate::fault::ScopeFault;
use crate::file_names::FileNames;
use crate::role::Role;
use crate::vars::twice;
use cal_ast::{Ident, Member, Param};
use rvc_base::Memory;
use std::alloc::Global;

impl FileNames {
    /// The names that an actor's parameters and members declare.
    ///
    /// # Errors
    ///
    /// `Broken`: a name is declared twice; the place is that of the second declaration. `Memory`: an allocation was
    /// refused.
    pub fn of_actor(
        alloc: Global,
        params: &[Param],
        members: &[Member],
    ) -> Result<FileNames, ScopeFault>
        ensures { Judges (λ names. names) result
            (names_of_actor (params_tree params.now) (members_tree members.now)) }
    {
        let mut names = FileNames::new(alloc);
        declare_params(&mut names, params)?;
        declare_members(&mut names, "", members)?;
        Ok(names)
    }

    /// The names that the members of a unit declare. What stands for one of them wherever it is used is the name behind
    /// `before`, which is the unit's class and a dot.
    ///
    /// # Errors
    ///
    /// As those of [`FileNames::of_actor`].
    pub fn of_unit(alloc: Global, before: &str, members: &[Member]) -> Result<FileNames, ScopeFault>
        ensures { Judges (λ names. names) result
            (with_all_declared before.now (members_tree members.now) []) }
    {
        let mut names = FileNames::new(alloc);
        declare_members(&mut names, before, members)?;
        Ok(names)
    }
}

/// A name with a text before it.
fn joined(alloc: Global, before: &str, name: &str) -> Result<String, Memory>
    ensures { IfOk result (λ text. string_bytes text ≡ before.now ++ name.now) }
{
    let mut text = String::from_str(alloc, before)?;
    text.push_str(name)?;
    Ok(text)
}

/// Adds a declared name.
fn declare(
    names: &mut FileNames,
    before: &str,
    name: &Ident,
    role: Role,
    at: u32,
) -> Result<(), ScopeFault>
    ensures { Judges (λ _. names.new) result
        (with_named before.now (string_bytes name.now.text) role at names.old) }
{
    let text = name.text.as_str();
    if names.has(text) {
        return Err(twice(at));
    }
    let full = joined(names.alloc(), before, text)?;
    names.add(text, role, full.as_str())?;
    Ok(())
}

/// Adds the name of a parameter.
fn declare_param(names: &mut FileNames, p: &Param) -> Result<(), ScopeFault>
    ensures { Judges (λ _. names.new) result (with_declared [] (param_tree p.now) names.old) }
{
    declare(names, "", &p.name, Role::Variable, p.at)
}

/// Adds the name that a member declares, if it declares one.
fn declare_member(names: &mut FileNames, before: &str, m: &Member) -> Result<(), ScopeFault>
    ensures { Judges (λ _. names.new) result
        (with_declared before.now (member_tree m.now) names.old) }
{
    match m {
        Member::Var(v) => declare(names, before, &v.name, Role::Variable, v.at),
        Member::Function(f) => declare(names, before, &f.name, Role::Function, f.at),
        Member::Procedure(p) => declare(names, before, &p.name, Role::Procedure, p.at),
        Member::Action(_) => Ok(()),
        Member::Schedule(_) => Ok(()),
        Member::Priority(_) => Ok(()),
    }
}

/// Adds the names of parameters in order.
fn declare_params(names: &mut FileNames, params: &[Param]) -> Result<(), ScopeFault>
    ensures { Judges (λ _. names.new) result
        (with_all_declared [] (params_tree params.now) names.old) }
{
    let mut rest = params;
    'params: while let Some((first, others)) = rest.split_first() {
        declare_param(names, first)?;
        rest = others;
    }
    Ok(())
}

/// Adds the names that members declare in order.
fn declare_members(
    names: &mut FileNames,
    before: &str,
    members: &[Member],
) -> Result<(), ScopeFault>
    ensures { Judges (λ _. names.new) result
        (with_all_declared before.now (members_tree members.now) names.old) }
{
    let mut rest = members;
    'members: while let Some((first, others)) = rest.split_first() {
        declare_member(names, before, first)?;
        rest = others;
    }
    Ok(())
}
