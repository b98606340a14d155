//! Laws of bodies of which code can be made. Each is a function that does nothing: its contract is what is proved.

ghost use Rattle.law_bodies.specs.NoneLeft.{NothingLeftOfActions, NothingLeftOfFunction};
ghost use Rattle.law_bodies.specs.NoneLeft.{NothingLeftOfProcedure, NothingLeftOfStatements};

/// Nothing is left out of statements that are ones, nor of a function or a procedure that breaks no rule.
pub fn nothing_is_left_out_of_bodies()
    ensures statements { NothingLeftOfStatements }
    ensures function { NothingLeftOfFunction }
    ensures procedure { NothingLeftOfProcedure }
{}

/// Nothing is left out of the guards of an action of a sound actor, nor of its firing, if each function and each procedure of
/// the actor has a routine.
pub fn nothing_is_left_out_of_actions()
    ensures { NothingLeftOfActions }
{}
