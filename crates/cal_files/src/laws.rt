//! What holds of files as a library tells them.

ghost use Rattle.cal_files.specs.Laws.{LoadedIsNotRefused, LoadingsAreOne};
ghost use Rattle.cal_files.specs.Reached.{LoadedAreReached};

use cal_parser::one_tree;

/// If a library tells of each name, an actor has at most one list of files.
pub fn one_loading()
    ensures { LoadingsAreOne }
{
    one_tree();
}

/// If a library tells of each name, and all files that an actor asks for are read, none of them is refused.
pub fn one_outcome()
    ensures { LoadedIsNotRefused }
{
    one_tree();
}

/// The files that an actor asks for are those to which imports lead from its own file, directly or indirectly: each but
/// the first is imported by one before it, each that one of them imports is there, and each is there once.
pub fn loaded_are_reached()
    ensures { LoadedAreReached }
{}
