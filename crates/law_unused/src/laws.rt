//! Laws of what uses only names that are kept, and of the actor as it is written. Each is a function that does nothing:
//! its contract is what is proved.

ghost use Rattle.law_unused.specs.AsWritten.{SourcesAreOrderedAsWritten, SourcesBehaveAsWritten};
ghost use Rattle.law_unused.specs.AsWritten.{WholesBehaveAsWritten};
ghost use Rattle.law_unused.specs.Behaving.{KeptPartsBehaveTheSame, KeptPartsHaveStates};
ghost use Rattle.law_unused.specs.Laws.{EachGivesTheSame, ExpressionsGiveTheSame, StatementsDoTheSame};
ghost use Rattle.law_unused.specs.Laws.{KeptFunctionsGiveTheSame, ProceduresOverKeptDoTheSame};
ghost use Rattle.law_unused.specs.WholeActor.{SourcesAreClosed, SourcesAreParts, SourcesBehaveAsWhole};

use cal_check::{sources_without_violations_are_sound, written_routines_do_the_same};

/// Expressions that use only names that are kept give over the kept variables and functions what they give over all
/// (`one`), and so do several in order (`each`).
pub fn expressions_over_used_names_give_the_same()
    ensures one { ExpressionsGiveTheSame }
    ensures each { EachGivesTheSame }
{}

/// Statements that use only names that are kept make of the kept variables what is kept of what they make of all.
pub fn statements_over_used_names_do_the_same()
    ensures { StatementsDoTheSame }
{}

/// Functions that are kept, use only what is kept and never call themselves give what they give among all
/// (`functions`), and procedures that use only what is kept do what they do over all (`procedures`).
pub fn routines_over_used_names_do_the_same()
    ensures functions { KeptFunctionsGiveTheSame }
    ensures procedures { ProceduresOverKeptDoTheSame }
{}

/// Of an actor that uses only what is kept the kept part behaves as the whole does, of each state of the whole
/// (`behaviour`), and what is kept of that state is a state of the part (`states`).
pub fn kept_parts_behave_the_same()
    ensures behaviour { KeptPartsBehaveTheSame }
    ensures states { KeptPartsHaveStates }
{}

/// The actor of a source that breaks no rule is a part of the actor with all that its own file and its imports declare
/// (`part`), which uses nothing else (`closed`), and behaves as that whole (`behaviour`).
pub fn sources_behave_as_with_all_declared()
    ensures part { SourcesAreParts }
    ensures closed { SourcesAreClosed }
    ensures behaviour { SourcesBehaveAsWhole }
{
    sources_without_violations_are_sound();
}

/// The actor of a source that breaks no rule behaves as the actor as it is written, in which nothing is left out and no
/// size or bound is written out (`behaviour`), and so does the actor with all that is declared (`whole`). The order of
/// its actions is one of the actor as it is written (`order`).
pub fn sources_behave_as_written()
    ensures order { SourcesAreOrderedAsWritten }
    ensures whole { WholesBehaveAsWritten }
    ensures behaviour { SourcesBehaveAsWritten }
{
    sources_without_violations_are_sound();
    written_routines_do_the_same();
}
