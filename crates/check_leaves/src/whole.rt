//! All leaves.

ghost use Rattle.std.specs.Prelude.{◌≤◌, IfErr, IfOk, length, map};
ghost use Rattle.cal_imports.specs.View.{sources};
ghost use Rattle.fnl_tree.specs.View.{leaf_of};
ghost use Rattle.net_model.specs.Limits.{max_instances};
ghost use Rattle.law_sources.specs.Names.{AreSpelled};
ghost use Rattle.check_leaves.specs.Leaves.{AreActorsOf, HasSoundActors, IsComplete, IsFault, IsWithin, StandsOnce, actors_at_leaves};

use crate::found::LeafActors;
use crate::known::Known;
use crate::laws::spelled_actors_are_formed;
use cal_check::sources_without_violations_are_sound;
use cal_imports::FileSet;
use fnl_tree::Leaf;
use law_sources::names_differ;
use rvc_base::Front;
use std::alloc::Global;

/// The actors at the leaves of a network, over the files to which their classes and imports lead (ISO/IEC 23001-4, FNL:
/// instances and parameters). The files are what their texts spell, as those that were loaded
/// ([`network_files_are_spelled`](law_sources::network_files_are_spelled)), and the leaves are those of a tree that
/// binding gives, so they are few.
///
/// Leaves of one class that give the same parameters equal values, in one order, have one actor, which is checked once
/// (`once`). All actors are sound (`sound`).
///
/// # Errors
///
/// `Refused` if there is no actor at a leaf: with a rule that the first such leaf breaks, by the scope of its class or by
/// its actor (`refused`). If there is an actor at each leaf, that never comes (`complete`). `Memory` if memory runs out.
pub fn check_leaves(alloc: Global, files: &FileSet, leaves: &[Leaf]) -> Result<LeafActors, Front>
    requires spelled { AreSpelled (sources files.now) }
    requires few { length leaves.now ≤ max_instances }
    ensures checked { IfOk result
        (λ found. AreActorsOf (sources files.now) (map leaf_of leaves.now) (actors_at_leaves found)) }
    ensures within { IfOk result IsWithin }
    ensures once { IfOk result (StandsOnce (map leaf_of leaves.now)) }
    ensures sound { IfOk result HasSoundActors }

    // Why there are none.
    ensures refused { IfErr result (IsFault (sources files.now) (map leaf_of leaves.now)) }
    ensures complete { IsComplete result (sources files.now) (map leaf_of leaves.now) }
{
    names_differ();
    spelled_actors_are_formed();
    sources_without_violations_are_sound();
    let mut known = Known::new(alloc);
    let mut rest = leaves;
    'leaves: while let Some((leaf, others)) = rest.split_first() {
        known.add(alloc, files, leaf)?;
        rest = others;
    }
    Ok(LeafActors {
        actors: known.actors,
        of_leaf: known.of_leaf,
    })
}
