//! What holds of files as a library tells them.

ghost use Rattle.fnl_files.specs.Laws.{LeavesAreTried, LeavesHaveFiles, LoadedAreServed, LoadedIsNotRefused};

use cal_grammar::one_tree;
use fnl_grammar::files_are_read_as_they_are_spelled;

/// If a library tells of each name, and all files that a top asks for are read, none of them is refused.
pub fn one_outcome()
    ensures { LoadedIsNotRefused }
{
    one_tree();
    files_are_read_as_they_are_spelled();
}

/// All files that a top needs serve all that is asked for (`served`). Such files have one for each actor of the tree that
/// their networks make (`leaves`). The class of each was looked up as a network before, and missed (`tried`).
pub fn leaves_have_files()
    ensures served { LoadedAreServed }
    ensures leaves { LeavesHaveFiles }
    ensures tried { LeavesAreTried }
{}
