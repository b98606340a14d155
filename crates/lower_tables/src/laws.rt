//! What holds of lowered actors with the tables of an actor. Each law is a function that does nothing: its contract is
//! what is proved.

ghost use Rattle.lower_tables.specs.Laws.{AboveIsMeant, BehavesAsMeant, EligibleIsMeant, FiringRunsSuffice, GuardRunsSuffice, LineIsMeant, NextIsMeant, RatesAreMeant, TokensAreMeant};

use cal_model::{
    actions_fire_or_trap, actors_stay_in_their_states, behaviour_is_the_firing_rule, one_line,
    ports_keep_tokens,
};
use lowered_actor::laws::runs_are_the_meaning;

/// A lowered actor with the tables of a sound actor has its rates, its eligible actions and where they lead, its
/// priorities and its line; whatever its code does.
pub fn tables_are_meant()
    ensures rates { RatesAreMeant }
    ensures tokens { TokensAreMeant }
    ensures eligible { EligibleIsMeant }
    ensures next { NextIsMeant }
    ensures above { AboveIsMeant }
    ensures line { LineIsMeant }
{
    one_line();
}

/// If besides its guards say what those of the actor say, and its firings leave what the actor's leave, it behaves as
/// the actor does, as networks see it.
pub fn lowered_actors_behave_as_meant()
    ensures { BehavesAsMeant }
{
    one_line();
    behaviour_is_the_firing_rule();
    ports_keep_tokens();
    actors_stay_in_their_states();
    actions_fire_or_trap();
}

/// That guards and firings do what those of the actor do is seen from one run of each, in each state and over all
/// tokens: no other run of admitted code ends otherwise.
pub fn runs_suffice()
    ensures guards { GuardRunsSuffice }
    ensures firings { FiringRunsSuffice }
{
    runs_are_the_meaning();
}
