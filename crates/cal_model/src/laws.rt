//! What holds of all values and actors.
//!
//! Each law is the contract of a function that does nothing: it is proved with the crate, and can be cited.

ghost use Rattle.cal_model.specs.Laws.{AboveIsOne, ArgumentsAreKept, AsManyAreKept, BehaviourIsEffect, BehaviourIsIdle, BehaviourIsLawful, BehaviourIsOne, BehaviourKeepsStates, BehaviourStoresTokens, BodiesGiveOrTrap, CallIsAnswered, CallIsKept, ChainsPutAbove, ChoiceIsOne, ChosenIsEnabled, ChosenTraps, ConstantIsValue, CounterIsKept, EffectIsOne, EffectsAreFirings, EffectsAreTraps, ElementsAreKept, EnabledFiresOrTraps, EntryIsKept, FiringsKeepStates, FunctionsTakeTurns, GuardsAreTruths, JudgedIsType, KeptAreTokens, KindIsKept, KindsAreKept, LineIsOne, LocalsAreKept, LoopsCountTurns, LoopsEndByTurns, NeverBoth, NothingIsLacking, NumbersAreWritten, NumbersUnfold, OneFiring, OneTrap, ProceduresTakeTurns, RunIsPerformed, SoundFunsAreOfKinds, SoundHavePriorities, StartIsState, StatesAreTested, StoredIsOfType, StoringStays, TagsStandFor, TokensStay, TransitionsLead, TypeArgumentsAreKept, TypeIsKept, WaitingIsIdle, WhileUnfolds, ZeroIsOfType};

/// A value of a type's kind is in the type once it is stored, and then stays when it is stored again. What a
/// variable without value holds is in the type too.
pub fn stored_values_are_in_their_type()
    ensures stored { StoredIsOfType }
    ensures stays { StoringStays }
    ensures without_value { ZeroIsOfType }
{}

/// An action has at most one firing or one trap in a state, over given tokens, and never both.
pub fn one_effect()
    ensures firing { OneFiring }
    ensures trap { OneTrap }
    ensures never_both { NeverBoth }
{}

/// What selection gives: an exposed and enabled action to fire, or an exposed one whose guards trap, or none if
/// the guards of each action are false or it isn't eligible or lacks tokens.
pub fn selection()
    ensures fires { ChosenIsEnabled }
    ensures traps { ChosenTraps }
    ensures waits { WaitingIsIdle }
{}

/// What the behaviour of an actor does is exactly what the firing rule says, in the states that the actor can be in and
/// over tokens of its ports' types. Other tokens count as what the ports would store, and in other states it does
/// nothing.
pub fn behaviour_is_the_firing_rule()
    ensures firings { EffectsAreFirings }
    ensures traps { EffectsAreTraps }
    ensures in_states { BehaviourIsEffect }
    ensures stored { BehaviourStoresTokens }
    ensures elsewhere { BehaviourIsIdle }
{}

/// What tags mean: a tag stands for the actions whose tags begin with its components, an `initialize` excepted; a
/// transition leads by the actions that its tags stand for; and a chain puts those of each tag above those of the next.
pub fn tags_stand_for_actions()
    ensures tag { TagsStandFor }
    ensures transition { TransitionsLead }
    ensures chain { ChainsPutAbove }
{}

/// A sound actor begins in one of its states, and each firing leaves it in one. The test of states says what they are.
pub fn actors_stay_in_their_states()
    ensures tested { StatesAreTested }
    ensures start { StartIsState }
    ensures firing { FiringsKeepStates }
    ensures behaviour { BehaviourKeepsStates }
{}

/// In the states of a sound actor and over tokens of its ports nothing lacks a name and no kinds clash: each guard is a
/// truth value or traps, the body of an eligible action leaves one of the states or traps, and an action that is
/// exposed and enabled fires or traps.
pub fn actions_fire_or_trap()
    ensures guards { GuardsAreTruths }
    ensures bodies { BodiesGiveOrTrap }
    ensures enabled { EnabledFiresOrTraps }
{}

/// The behaviour of a sound actor is lawful: what has an effect has its tokens, a firing sends what its action gives,
/// on each port nothing depends on tokens after the greatest need of any action there, the choice is an enabled action
/// or one whose guards trap, and beyond the actions there is nothing.
pub fn sound_actors_are_lawful()
    ensures { BehaviourIsLawful }
{}

/// Tokens as ports store them are in the types of the ports, as many as before, and those that were in the types stay
/// as they are.
pub fn ports_keep_tokens()
    ensures in_type { KeptAreTokens }
    ensures stay { TokensStay }
    ensures as_many { AsManyAreKept }
{}

/// Each number of the language, the least one too, is the value of an expression of numbers and `-` alone.
pub fn numbers_are_written_out()
    ensures { NumbersAreWritten }
{}

/// A sound actor has priorities: which action is above which, and a line of the actions.
pub fn sound_actors_have_priorities()
    ensures { SoundHavePriorities }
{}

/// There is one line of an actor's actions: which stands above which, and with it the line, the choice, each effect and
/// the whole behaviour, are determined by the actor.
pub fn one_line()
    ensures above { AboveIsOne }
    ensures line { LineIsOne }
    ensures choice { ChoiceIsOne }
    ensures effect { EffectIsOne }
    ensures behaviour { BehaviourIsOne }
{}

/// A loop over n numbers whose body is empty makes n turns: it ends if so many are left, and is one turn too
/// many if fewer are.
pub fn loops_count_turns()
    ensures end { LoopsCountTurns }
    ensures too_many { LoopsEndByTurns }
{}

/// A loop is a turn and its body, and then the same loop, however many turns are left: over functions and procedures
/// that leave no more turns than they get, as those of an actor do.
pub fn loops_go_on()
    ensures while_true { WhileUnfolds }
    ensures each_number { NumbersUnfold }
    ensures functions { FunctionsTakeTurns }
    ensures procedures { ProceduresTakeTurns }
{}

/// Evaluation of an expression that has a kind gives a value of that kind, or a trap: over an environment of its
/// names, with functions that are of their kinds. It never clashes. It lacks a name only if the environment may
/// lack one, or a function may call itself.
pub fn kinds_are_kept()
    ensures expression { KindIsKept }
    ensures expressions { KindsAreKept }
    ensures arguments { ArgumentsAreKept }
    ensures elements { ElementsAreKept }
    ensures call { CallIsKept }
    ensures answered { CallIsAnswered }
    ensures nothing_lacks { NothingIsLacking }
    ensures sound { SoundFunsAreOfKinds }
{}

/// What a procedure makes of the globals is what its arguments, its locals and its body make of them over all
/// procedures, if none calls itself, directly or indirectly: the bound on open calls never shows.
pub fn procedures_are_performed()
    ensures { RunIsPerformed }
{}

/// A type that is judged over the constants of names is the type that is meant at run time, and its sizes are allowed.
pub fn types_are_kept()
    ensures meant { TypeIsKept }
    ensures arguments { TypeArgumentsAreKept }
    ensures allowed { JudgedIsType }
{}

/// What a constant expression gives while kinds are sought is what evaluation gives over the constants.
pub fn constants_are_values()
    ensures { ConstantIsValue }
{}

/// The variables of generators and loops, the arguments of a function and its locals keep an environment to its
/// names.
pub fn environments_are_kept()
    ensures counter { CounterIsKept }
    ensures entry { EntryIsKept }
    ensures locals { LocalsAreKept }
{}
