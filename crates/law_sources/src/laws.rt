//! What holds of the texts that stand for declarations.

ghost use Rattle.law_sources.specs.Names.{ActorFilesAreSpelled, ActorNamesDiffer, NamesDiffer, NetworkFilesAreSpelled, NetworkNamesDiffer, SaidFilesAreSpelled, SaidNamesDiffer};

/// No two texts that stand for variables, functions and procedures of an actor in its scope are equal, if its file and
/// those to which its imports lead are what texts spell.
pub fn names_differ()
    ensures { NamesDiffer }
{}

/// The files that are loaded for an actor are what their bytes spell, so the texts that stand for its declarations differ.
pub fn actor_files_are_spelled()
    ensures spelled { ActorFilesAreSpelled }
    ensures names { ActorNamesDiffer }
{
    names_differ();
}

/// The actors and units among files that say what their texts spell are spelled, so the texts that stand for the
/// declarations of each actor among them differ. It asks nothing of the library, which need not tell of any file.
pub fn said_files_are_spelled()
    ensures spelled { SaidFilesAreSpelled }
    ensures names { SaidNamesDiffer }
{
    names_differ();
}

/// The files that are loaded for a network are such files.
pub fn network_files_are_spelled()
    ensures spelled { NetworkFilesAreSpelled }
    ensures names { NetworkNamesDiffer }
{
    names_differ();
}
