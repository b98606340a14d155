//! The actors of a tree are joined.

ghost use Rattle.std.specs.Prelude.{◌≡◌, ◌∷◌, [], IfErr, IfOk, map};
ghost use Rattle.cal_model.specs.Sound.{Each, IsSound};
ghost use Rattle.cal_model.specs.View.{actor_of};
ghost use Rattle.fnl_tree.specs.View.{tree_of};
ghost use Rattle.fnl_flatten.specs.Whole.{IsWhole};
ghost use Rattle.check_leaves.specs.Leaves.{IsWithin, actors_at_leaves, distinct_actors};
ghost use Rattle.fnl_source.specs.Actors.{head_of};
ghost use Rattle.network_check.specs.Steps.{HasOne, IsJoined, IsNotJoined};

use crate::checked::Checked;
use cal_model::Bound;
use check_leaves::{LeafActors, heads};
use fnl_flatten::flatten;
use fnl_tree::Tree;
use rvc_base::{Front, Memory};
use std::alloc::Global;

/// The actor of the one leaf.
pub fn one_actor(found: &LeafActors) -> &Bound
    requires { HasOne found.now }
    ensures { actors_at_leaves found.now ≡ actor_of result.now ∷ [] }
{
    &found.actors[found.of_leaf[0] as usize]
}

/// The actors of a tree, joined by its links.
///
/// # Errors
///
/// `Refused`: the links break a rule or a limit. `Memory`: an allocation was refused (`refused`).
pub fn join(alloc: Global, tree: &Tree, found: LeafActors) -> Result<Checked, Front>
    requires whole { IsWhole (tree_of tree.now) (map head_of (actors_at_leaves found)) }
    requires sound { Each IsSound (distinct_actors found) }
    requires within { IsWithin found }
    ensures joined { IfOk result (IsJoined (tree_of tree.now) found) }
    ensures refused { IfErr result (IsNotJoined (tree_of tree.now) found) }
{
    let heads = match heads(alloc, &found) {
        Ok(heads) => heads,
        Err(Memory) => return Err(Front::Memory),
    };
    match flatten(alloc, tree, &heads) {
        Ok(flat) => Ok(Checked {
            flat,
            actors: found,
        }),
        Err(front) => Err(front),
    }
}
