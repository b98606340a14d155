//! What an actor uses of other files, directly or indirectly.

ghost use Rattle.std.specs.Prelude.{◌≡◌, ◌++◌, [], List, IfOk, OnOk, map};
ghost use Rattle.cal_ast.specs.View.{actor_tree};
ghost use Rattle.cal_check.specs.Actors.{Outer, Source};
ghost use Rattle.check_used.specs.Using.{IsFound, IsSettled, IsSourceOf, Keeps, keeps, outer_view, round_left, round_names, visited_left, visited_names, with_outers};

use crate::members::add_actor;
use crate::name_set::NameSet;
use crate::outer::{OuterDecl, add_outer};
use cal_ast::Actor;
use rvc_base::Memory;
use std::alloc::Global;
use std::marker::Model;

/// The names that an actor keeps: those of its own file, and those of others that it uses, directly or indirectly.
///
/// It is seen as the names of others and those that are used.
#[derive(Drop)]
pub struct UsedNames {
    /// The names of what other files declare.
    others: NameSet,
    /// The names that the actor uses, or something that it uses.
    used: NameSet,
}

impl Model for UsedNames {
    ghost use Rattle.check_used.specs.Using.{KeptNames};

    ghost Value = { KeptNames };

    ghost view = { λ kept. record { others = kept.others; used = kept.used } };
}

impl UsedNames {
    /// Whether a name is kept.
    pub fn keeps(&self, name: &str) -> bool
        ensures { result ≡ keeps name.now self.now }
    {
        !self.others.contains(name) || self.used.contains(name)
    }
}

/// The names that an actor keeps, if its imports lead to these declarations.
///
/// # Errors
///
/// `Memory` if memory runs out.
pub fn used_names(alloc: Global, actor: &Actor, decls: &[OuterDecl]) -> Result<UsedNames, Memory>
    ensures { IfOk result (λ kept. (s : Source)
        → IsSourceOf s (actor_tree actor.now) (map outer_view decls.now) → Keeps kept s) }
{
    let others = names_of(alloc, decls)?;
    let used = found_names(alloc, actor, decls)?;
    Ok(UsedNames { others, used })
}

/// The names of declarations.
fn names_of(alloc: Global, decls: &[OuterDecl]) -> Result<NameSet, Memory>
    ensures { IfOk result (λ names. names ≡ with_outers (map outer_view decls.now) []) }
{
    let mut names = NameSet::new(alloc);
    for d in decls {
        names.add(d.name)?;
    }
    Ok(names)
}

/// The names that an actor uses, or something that it uses.
///
/// A declaration uses others that stand before it, or behind it, so each round goes the other way than the last one: a
/// chain of declarations that stand in one order is found in two rounds.
fn found_names(alloc: Global, actor: &Actor, decls: &[OuterDecl]) -> Result<NameSet, Memory>
    ensures { IfOk result (λ names. (s : Source)
        → IsSourceOf s (actor_tree actor.now) (map outer_view decls.now)
        → (left : List Outer) × IsFound s names left × IsSettled names left) }
{
    let mut names = NameSet::new(alloc);
    add_actor(&mut names, actor)?;
    let mut left = round(alloc, &mut names, decls)?;
    let mut before = decls.len();
    'rounds: while left.len() < before {
        before = left.len();
        left.reverse();
        left = round(alloc, &mut names, &left)?;
    }
    Ok(names)
}

/// Adds the names in each declaration whose name was found by then. Those whose name wasn't are left.
fn round<'a>(
    alloc: Global,
    names: &mut NameSet,
    decls: &[OuterDecl<'a>],
) -> Result<Vec<OuterDecl<'a>>, Memory>
    ensures names { OnOk result (names.new ≡ round_names (map outer_view decls.now) names.old) }
    ensures left { IfOk result (λ left. map outer_view left.items
        ≡ round_left (map outer_view decls.now) names.old) }
{
    let mut left = Vec::new(alloc);
    for d in decls {
        visit(names, &mut left, d)?;
    }
    Ok(left)
}

/// Adds the names in a declaration, if its name was found; else it is left.
fn visit<'a>(
    names: &mut NameSet,
    left: &mut Vec<OuterDecl<'a>>,
    d: &OuterDecl<'a>,
) -> Result<(), Memory>
    ensures names { OnOk result (names.new ≡ visited_names (outer_view d.now) names.old) }
    ensures left { OnOk result (map outer_view left.new.items
        ≡ map outer_view left.old.items ++ visited_left (outer_view d.now) names.old) }
{
    if names.contains(d.name) {
        return add_outer(names, d);
    }
    left.push(*d)?;
    Ok(())
}
