//! What holds of source networks.

ghost use Rattle.fnl_source.specs.Answers.{ActorsHaveHeads, ActorsMakeWhole, AnswersAreSource, BoundAreTrees, LoneTreesAreSound};
ghost use Rattle.fnl_source.specs.Laws.{ActorsAreOne, NetworksAreOne};
ghost use Rattle.fnl_source.specs.Library.{ActorFilesAreLoaded, ActorFilesAreSources, ChoicesAreOne, FilesAreOne, LibraryNetworksAreOne};

use cal_grammar::one_tree;
use cal_model::one_line;
use fnl_grammar::files_are_read_as_they_are_spelled;

/// Files mean at most one network from a class down, and each of its actors is determined by its class and the values of
/// its parameters.
pub fn one_network()
    ensures actor { ActorsAreOne }
    ensures network { NetworksAreOne }
{
    one_line();
}

/// If a library tells of each name, the bytes of its files mean at most one network from a top down: which classes are
/// networks is told, which files the top needs is determined by their bytes, and what each of them says is what its bytes
/// spell.
pub fn one_library_network()
    ensures choice { ChoicesAreOne }
    ensures files { FilesAreOne }
    ensures network { LibraryNetworksAreOne }
{
    one_network();
    one_tree();
    files_are_read_as_they_are_spelled();
}

/// The files that are loaded for an actor and its imports are those that the actor needs as the top of a network, under
/// the same classes and numbers.
pub fn actor_files_are_loaded()
    ensures loaded { ActorFilesAreLoaded }
    ensures sources { ActorFilesAreSources }
{}

/// What binding and flattening answer is the source network of a class. If its top is a network, `bind` answers its tree
/// (`bound`); if it is an actor alone, its tree is sound too (`lone`). With the ports of sound actors, one for each leaf,
/// either can be flattened (`whole`), and these actors, joined by the links that are answered, are the source network
/// (`network`).
pub fn answers_are_the_source_network()
    ensures heads { ActorsHaveHeads }
    ensures lone { LoneTreesAreSound }
    ensures whole { ActorsMakeWhole }
    ensures bound { BoundAreTrees }
    ensures network { AnswersAreSource }
{}
