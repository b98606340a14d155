//! A file with each name written out in full.
#![tactic(auto, using(cal_scope::proofs::Judged::breaks_on, crate::proofs::Answered::refused_on, crate::proofs::Answered::placed_answers))]

ghost use Rattle.std.specs.Prelude.{◌≡◌, [], IfOk};
ghost use Rattle.cal_ast.specs.Tree as tree;
ghost use Rattle.cal_ast.specs.View.{actor_tree, file_body_tree, unit_tree};
ghost use Rattle.cal_scope.specs.Judging.{Judges};
ghost use Rattle.cal_scope.specs.Members.{ports_of};
ghost use Rattle.cal_scope.specs.PortView.{ports_view};
ghost use Rattle.cal_imports.specs.Answer.{Answers};
ghost use Rattle.cal_imports.specs.OneFile.{body_resolved, source_resolved};
ghost use Rattle.cal_imports.specs.View.{source, sources};

use crate::entry::Entry;
use crate::fault::ImportFault;
use crate::file_set::FileSet;
use crate::header::{params, ports};
use crate::imports::{in_file, names_seen};
use cal_ast::{Actor, Body, UnitFile};
use cal_scope::{FileNames, PortNames, ScopeFault, resolve_members};
use rvc_base::Memory;
use std::alloc::Global;

/// An actor.
fn actor(alloc: Global, names: &FileNames, a: &Actor) -> Result<Actor, ScopeFault>
    ensures { Judges actor_tree result (body_resolved (actor_tree a.now) names.now) }
{
    let params = params(alloc, names, &a.params)?;
    let ins = ports(alloc, names, &a.ins)?;
    let outs = ports(alloc, names, &a.outs)?;
    let declared = PortNames::of(alloc, &a.ins, &a.outs)?;
    let members = resolve_members(names, &declared, &a.members)?;
    let name = a.name.copy(alloc)?;
    Ok(Actor {
        name,
        params,
        ins,
        outs,
        members,
        at: a.at,
    })
}

/// No ports.
fn no_ports(alloc: Global) -> Result<PortNames, Memory>
    ensures { IfOk result (λ ports. ports_view ports ≡ ports_of tree.nil tree.nil) }
{
    PortNames::of(alloc, &[], &[])
}

/// A unit.
fn unit(alloc: Global, names: &FileNames, u: &UnitFile) -> Result<UnitFile, ScopeFault>
    ensures { Judges unit_tree result (body_resolved (unit_tree u.now) names.now) }
{
    let declared = no_ports(alloc)?;
    let members = resolve_members(names, &declared, &u.members)?;
    let name = u.name.copy(alloc)?;
    Ok(UnitFile {
        name,
        members,
        at: u.at,
    })
}

/// What a file declares.
fn body(alloc: Global, names: &FileNames, b: &Body) -> Result<Body, ScopeFault>
    ensures { Judges file_body_tree result (body_resolved (file_body_tree b.now) names.now) }
{
    match b {
        Body::Actor(a) => Ok(Body::Actor(actor(alloc, names, a)?)),
        Body::Unit(u) => Ok(Body::Unit(unit(alloc, names, u)?)),
    }
}

/// A file among others.
pub(crate) fn source(
    alloc: Global,
    set: &FileSet,
    name: &str,
    entry: &Entry,
) -> Result<Body, ImportFault>
    ensures { Answers file_body_tree result
        (source_resolved (sources set.now) (source name.now entry.now)) }
{
    let names = names_seen(alloc, set, name, entry)?;
    in_file(entry.file, body(alloc, &names, &entry.tree.body))
}
