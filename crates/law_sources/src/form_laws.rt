//! What holds of the parts of an actor, and of its calls.

ghost use Rattle.law_sources.specs.Formed.{CallsEnd, PartsAreFormed};

/// Functions, procedures, actions and the schedule of an actor in its scope have the forms of the grammar, if its file and
/// those to which its imports lead are what texts spell.
pub fn parts_are_formed()
    ensures { PartsAreFormed }
{}

/// No function and no procedure of such an actor calls itself, directly or indirectly: they have ranks, as many as there
/// are functions or procedures, and each calls only those of lower ranks.
pub fn calls_end()
    ensures { CallsEnd }
{}
