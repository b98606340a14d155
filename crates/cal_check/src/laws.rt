//! What holds of the parts of an actor that break no rule.
//!
//! Each law is the contract of a function that does nothing: it is proved with the crate, and can be cited.

ghost use Rattle.cal_check.specs.AsWritten.{ActionsDoTheSame, FunctionsGiveTheSame, ProceduresDoTheSame};
ghost use Rattle.cal_check.specs.Meaning.{StatementsKeepConstants, WrittenStatementsDoTheSame};
ghost use Rattle.cal_check.specs.Sources.{SourcesAreSound};
ghost use Rattle.cal_check.specs.Untyped.{UntypedGiveNothing};
ghost use Rattle.cal_check.specs.Laws.{ActionsAreSound, FunctionsAreSound, GuardsAreSound, HeadersAreSound, InitializesAreSound, LimitsAreSound, LocalsAreSound, PrioritiesAreSound, ProceduresAreSound, RatesAreSound, SchedulesAreSound, StatementsAreSound, WrittenKeepsKinds, WrittenKeepsValues};

/// Writing out sizes and bounds keeps the kinds of expressions and types, if constants are numbers of the language.
pub fn written_keeps_kinds()
    ensures { WrittenKeepsKinds }
{}

/// Writing out sizes and bounds keeps what expressions and types mean, in each environment that has all names.
pub fn written_keeps_values()
    ensures { WrittenKeepsValues }
{}

/// Statements that break no rule do the same once their sizes and bounds are written out, wherever the constants have
/// their values, and leave the constants as they are.
pub fn written_statements_do_the_same()
    ensures same { WrittenStatementsDoTheSame }
    ensures constants { StatementsKeepConstants }
{}

/// In a source that breaks no rule, functions, procedures and actions do what they do as they stand there, over all
/// globals that have the constants.
pub fn written_routines_do_the_same()
    ensures functions { FunctionsGiveTheSame }
    ensures procedures { ProceduresDoTheSame }
    ensures actions { ActionsDoTheSame }
{}

/// A function with a local whose type breaks a rule gives nothing where it is called, so no evaluation passes over it.
pub fn functions_without_types_give_nothing()
    ensures { UntypedGiveNothing }
{}

/// The ports of a header, and guards, locals, statements, actions, functions and procedures that break no rule are sound
/// once they are written out: over the names over which they are judged, and the last three over all names of the same
/// kinds. So are a schedule and priorities; actions take and give few tokens, at most one of them is an `initialize`,
/// and the limits count what the actor has.
pub fn what_breaks_no_rule_is_sound()
    ensures header { HeadersAreSound }
    ensures guards { GuardsAreSound }
    ensures locals { LocalsAreSound }
    ensures statements { StatementsAreSound }
    ensures actions { ActionsAreSound }
    ensures functions { FunctionsAreSound }
    ensures procedures { ProceduresAreSound }
    ensures schedules { SchedulesAreSound }
    ensures priorities { PrioritiesAreSound }
    ensures rates { RatesAreSound }
    ensures initialize { InitializesAreSound }
    ensures limits { LimitsAreSound }
{}

/// An actor that breaks no rule is sound, if its tree and what its imports lead to are as grammar and scopes leave them.
pub fn sources_without_violations_are_sound()
    ensures { SourcesAreSound }
{}
