//! The actor at one leaf.

ghost use Rattle.std.specs.Prelude.{◌≡◌, List};
ghost use Rattle.cal_check.specs.Sources.{names_of_source};
ghost use Rattle.cal_imports.specs.Answer.{Gives};
ghost use Rattle.cal_imports.specs.Resolved.{resolved};
ghost use Rattle.cal_imports.specs.ScopeView.{scope_view};
ghost use Rattle.cal_imports.specs.Sources.{Source};
ghost use Rattle.cal_imports.specs.View.{sources};
ghost use Rattle.cal_model.specs.Sound.{AreDistinct};
ghost use Rattle.fnl_tree.specs.View.{leaf_of};
ghost use Rattle.check_actor.specs.Sources.{source_in};
ghost use Rattle.check_leaves.specs.Steps.{IsAnswered, NamesStandApart, unfound};

use cal_imports::{FileSet, Scope, resolve};
use cal_model::Bound;
use check_actor::check;
use fnl_tree::Leaf;
use rvc_base::{Front, Place, Refusal, Rule};
use std::alloc::Global;

/// That no file has the class that is asked for.
fn not_found() -> Front
    ensures { result ≡ unfound }
{
    let rule = Rule::IMPORT_NOT_FOUND;
    let place = Place { file: 0, offset: 0 };
    Front::Refused(Refusal { rule, place })
}

/// The actor that a class's scope is over the values that a leaf gives.
fn checked(alloc: Global, scope: &Scope, leaf: &Leaf) -> Result<Bound, Front>
    requires { AreDistinct (names_of_source (source_in scope.now)) }
    ensures { (files : List Source)
        → resolved files (leaf_of leaf.now).class ≡ Gives (scope_view scope.now)
        → IsAnswered result files (leaf_of leaf.now) }
{
    check(alloc, scope, &leaf.bindings, leaf.instance_at)
}

/// The actor at one leaf, over the files to which its class and imports lead. The texts that stand for declarations differ
/// in each scope of the files, as [`names_differ`](law_sources::names_differ) says of files that are what their texts
/// spell.
///
/// # Errors
///
/// `Refused` if there is no actor at the leaf: with a rule that it breaks, by the scope of its class or by its actor. If no
/// file has its class, that is S3 at the words. `Memory` if memory runs out.
pub fn actor_at(alloc: Global, files: &FileSet, leaf: &Leaf) -> Result<Bound, Front>
    requires { NamesStandApart (sources files.now) }
    ensures { IsAnswered result (sources files.now) (leaf_of leaf.now) }
{
    let class = leaf.class.as_str();
    if !files.has(class) {
        return Err(not_found());
    }
    match resolve(files, class) {
        Ok(scope) => checked(alloc, &scope, leaf),
        Err(front) => Err(front),
    }
}
