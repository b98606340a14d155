//! What the scopes of files give an actor.

ghost use Rattle.law_sources.specs.Scoped.{ActionsAreScoped, FunsAreScoped, ProcsAreScoped};

/// In each function of an actor in its scope, and in those of other files, formals and locals have names that differ, and
/// no name that is declared inside is that of a function that is called there. The actor's file and those to which its
/// imports lead are what texts spell.
pub fn funs_are_scoped()
    ensures { FunsAreScoped }
{}

/// The same of each procedure, and of the functions and procedures that it calls.
pub fn procs_are_scoped()
    ensures { ProcsAreScoped }
{}

/// The same of each action, whose pattern variables and locals are one scope.
pub fn actions_are_scoped()
    ensures { ActionsAreScoped }
{}
