//! The call for an actor with what its imports lead to.

ghost use Rattle.std.specs.Prelude.{◌≡◌, ◌≤◌, ℕ, List, [], IfErr, IfOk, IsErr, IsSome, MatchResult};
ghost use Rattle.rvc_base.specs.declared.refusal.Refusal.{Refusal as Denial};
ghost use Rattle.cal_imports.specs.Resolved.{resolved};
ghost use Rattle.cal_imports.specs.ScopeView.{scope_view};
ghost use Rattle.cal_imports.specs.Sources.{source_named};
ghost use Rattle.cal_imports.specs.View.{sources};
ghost use Rattle.cal_imports.specs.Whole as whole;
ghost use Rattle.cal_files.specs.Actor.{HasActor, IsActorFault, RefusesActor};
ghost use Rattle.cal_files.specs.ActorView.{IsJudged};
ghost use Rattle.cal_files.specs.Loading.{Counts, TellsAll};
ghost use Rattle.cal_files.specs.Views.{IsOutside, file_names};

use crate::fault::{LoadFault, of_front};
use crate::laws::{one_loading, one_outcome};
use crate::loading::load;
use crate::names::Names;
use cal_imports::{FileSet, Scope, resolve};
use rvc_io::Library;
use std::alloc::Global;

/// The actor of a class, with each declaration of other files to which its imports lead. Each use of a name is written
/// out in full. The files and their names are those of [`load`].
///
/// If the library tells of each name, an actor whose files can all be read and break no rule of scope is given
/// (`complete`), and one that a rule refuses isn't (`incomplete`), unless a reading fails or memory runs out.
///
/// # Errors
///
/// `Refused`: a file can't be read, as [`load`] says, or a rule of scope is broken in one of them, as [`resolve`] says.
/// `ReadFault`: the reading of this file failed, and the failure was counted. `Memory`: an allocation was refused
/// (`fault`).
pub fn read_actor<L: Library>(
    alloc: Global,
    library: &mut L,
    class: &str,
    names: &mut Names,
) -> Result<Scope, LoadFault>
    requires { file_names names.old ≡ [] }
    ensures read { IfOk result (λ scope. HasActor (L.file library.old) class.now
        (file_names names.new) (scope_view scope)) }
    ensures fault { IfErr result (IsActorFault (L.file library.old) class.now
        (record { old = L.misses library.old; new = L.misses library.new })
        (record { old = L.faults library.old; new = L.faults library.new })
        (file_names names.new)) }

    // What a library that tells of each name decides.
    ensures complete { (scope : whole.Scope) (found : List (List ℕ)) → TellsAll (L.file library.old)
        → HasActor (L.file library.old) class.now found scope
        → MatchResult result (λ s. scope_view s ≡ scope) IsOutside }
    ensures incomplete { (misses : Counts) (refusal : Denial) (found : List (List ℕ))
        → TellsAll (L.file library.old)
        → RefusesActor (L.file library.old) class.now misses found refusal → IsErr result }

    ensures same_files { (other : List ℕ) → L.file library.new other ≡ L.file library.old other }
    ensures faults_stay { L.faults library.old ≤ L.faults library.new }
    ensures misses_stay { L.misses library.old ≤ L.misses library.new }
{
    one_loading();
    one_outcome();
    match load(alloc, library, class, names) {
        Ok(set) => actor_in(&set, class),
        Err(fault) => Err(fault),
    }
}

/// The actor of a class in a set that has a file of it.
fn actor_in(set: &FileSet, class: &str) -> Result<Scope, LoadFault>
    requires { IsSome (source_named class.now (sources set.now)) }
    ensures { IsJudged result (resolved (sources set.now) class.now) }
{
    match resolve(set, class) {
        Ok(scope) => Ok(scope),
        Err(front) => Err(of_front(front)),
    }
}
