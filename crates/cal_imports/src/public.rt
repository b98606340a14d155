//! The call for an actor in a set of files.
#![tactic(auto, using(crate::proofs::Answered::refused_on))]

ghost use Rattle.std.specs.Prelude.{IsSome};
ghost use Rattle.cal_imports.specs.Answer.{Answer, Answers};
ghost use Rattle.cal_imports.specs.Resolved.{resolved, source_linked};
ghost use Rattle.cal_imports.specs.ScopeView.{IsResolved, scope_view};
ghost use Rattle.cal_imports.specs.Sources.{source_named};
ghost use Rattle.cal_imports.specs.View.{source, sources};
ghost use Rattle.cal_imports.specs.Whole as whole;

use crate::entry::Entry;
use crate::fault::ImportFault;
use crate::file_set::FileSet;
use crate::gather::gather_actor;
use crate::recursion::without_recursion;
use crate::scope::Scope;
use rvc_base::{Front, Place, Refusal};
use std::alloc::Global;

/// An actor with what its imports lead to, in which no routine calls itself.
fn link(alloc: Global, set: &FileSet, name: &str, entry: &Entry) -> Result<Scope, ImportFault>
    ensures { Answers scope_view result (source_linked (sources set.now) (source name.now entry.now)) }
{
    let scope = gather_actor(alloc, set, name, entry)?;
    without_recursion(alloc, &scope)?;
    Ok(scope)
}

/// The actor of a class in a set of files, with each declaration of other files to which its imports lead, directly or
/// indirectly. Each use of a name is written out in full.
///
/// # Errors
///
/// `Refused`: a rule of scope, with the file and the place. A file's package, name or kind isn't what the class or the
/// import asks for; an import isn't in the set, or imports lead in a circle; in a file to which imports lead a name is
/// unknown, is declared twice or is used as what it isn't, or imports bring different things under one name. `Memory`:
/// an allocation was refused.
pub fn resolve(set: &FileSet, name: &str) -> Result<Scope, Front>
    requires { IsSome (source_named name.now (sources set.now)) }
    ensures { IsResolved result (resolved (sources set.now) name.now) }
{
    match set.find(name) {
        Some(entry) => front(link(set.alloc(), set, name, entry)),
        None => unreachable!(),
    }
}

/// The public answer for one of this crate's.
fn front(found: Result<Scope, ImportFault>) -> Result<Scope, Front>
    ensures { (answer : Answer whole.Scope) → Answers scope_view found answer → IsResolved result answer }
{
    match found {
        Ok(scope) => Ok(scope),
        Err(ImportFault::Refused { rule, file, at }) => Err(Front::Refused(Refusal {
            rule,
            place: Place { file, offset: at },
        })),
        Err(ImportFault::Memory) => Err(Front::Memory),
    }
}
