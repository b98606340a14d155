//! What holds of the code of actions. Each law is a function that does nothing: its contract is what is proved.

ghost use Rattle.action_lower.specs.Laws.{FiringsAreFired, LocalsAreStarted, LocalsFit, OutputsAreSent, OutputsFit};
ghost use Rattle.action_lower.specs.Laws.{SeenIsHeld};

use cal_model::actions_fire_or_trap;

/// The state cells and the tokens that an action takes hold what each name means that its guards see: in each state of
/// a sound actor, over tokens of its ports.
pub fn what_is_seen_is_held()
    ensures { SeenIsHeld }
{}

/// Code of outputs leaves the tokens that the outputs send, each stored in the type of its port, or traps as they do; and
/// a run of it has no other end.
pub fn outputs_are_sent()
    ensures { OutputsAreSent }
{}

/// Code of locals leaves cells that hold the environment that declaring the locals gives, or traps as
/// that does; and a run of it has no other end.
pub fn locals_are_started()
    ensures { LocalsAreStarted }
{}

/// Code of a firing of an action of a sound actor ends as the locals, the body and the outputs of the action do, and in
/// no other way: done, with the variables of the state that the firing leaves in the state cells and the tokens that it
/// sends in their cells, or by the same trap.
pub fn firings_are_fired()
    ensures { FiringsAreFired }
{
    // it tells that the body of an eligible action gives a state or traps
    actions_fire_or_trap();
}

/// Code of locals is admitted wherever it stands in code that has the routines: it fits there.
pub fn locals_fit()
    ensures { LocalsFit }
{}

/// Code of outputs is admitted wherever it stands in code that has the routines: it fits there.
pub fn outputs_fit()
    ensures { OutputsFit }
{}
