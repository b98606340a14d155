//! What holds of the actors at leaves.

ghost use Rattle.check_leaves.specs.Formed.{SpelledAreFormed};
ghost use Rattle.check_leaves.specs.Laws.{ActorsAreLeaves, AlikeAreOne};

use cal_model::sound_actors_have_priorities;
use law_sources::{
    actions_are_scoped, calls_end, funs_are_scoped, names_differ, parts_are_formed,
    procs_are_scoped,
};

/// Leaves of one class that give equal values to the same parameters are one actor, wherever they stand.
pub fn alike_leaves_are_one_actor()
    ensures { AlikeAreOne }
{}

/// The sound actors of some leaves are leaves of a network, with their paths, their classes and their behaviours.
pub fn actors_are_leaves_of_a_network()
    ensures { ActorsAreLeaves }
{
    sound_actors_have_priorities();
}

/// The actor of a class, with what its imports lead to, is as the grammar and the scopes leave it, if its files are what
/// texts spell. So it is sound if it breaks no rule.
pub fn spelled_actors_are_formed()
    ensures { SpelledAreFormed }
{
    names_differ();
    parts_are_formed();
    calls_end();
    funs_are_scoped();
    procs_are_scoped();
    actions_are_scoped();
}
