//! What holds of all lowered actors.
//!
//! Each law is the contract of a function that does nothing: it is proved with the crate, and can be cited.

ghost use Rattle.lowered_actor.specs.Laws.{FiringsEnd, GuardsEnd, LoweredAreLawful, TokensAreAsked};

use code_ir::laws;

/// What a lowered actor does is lawful: what has an effect has its tokens, a firing sends what its action gives, on
/// each port nothing depends on tokens after the greatest need of any action there, the choice is an enabled action or
/// one whose guards trap, and beyond the actions there is nothing.
pub fn lowered_actors_are_lawful()
    ensures { LoweredAreLawful }
{
    laws::stands();
    laws::has_one_end();
}

/// If an action has its tokens, a run over those that it takes, from cells of a state, is one that the facts of
/// guards and firings speak of. Its outcome is the one of the actor's meaning, whatever the cells behind the state
/// cells held; and so are the state and the tokens to send that a firing leaves.
pub fn runs_are_the_meaning()
    ensures asked { TokensAreAsked }
    ensures guards { GuardsEnd }
    ensures firings { FiringsEnd }
{
    laws::stands();
    laws::has_one_end();
}
