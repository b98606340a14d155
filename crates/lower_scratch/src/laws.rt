//! What holds of bodies that clear their cells first. The law is a function that does nothing: its contract is what is
//! proved.

ghost use Rattle.lowered_actor.specs.Actor.{Actor};
ghost use Rattle.lowered_actor.specs.Facts.{RunRight};
ghost use Rattle.lower_scratch.specs.Clearing.{AllStand};

use code_ir::laws::has_one_end;

/// Guards and firings keep the facts of lowered actors if each of them clears the cells behind the state cells before
/// anything else, up to some limit, and each of its instructions stands: it writes only where that is allowed, reads no
/// token behind those that the action takes and no cell from the limit on, ends the body as it must or stays in it, and
/// calls only routines whose instructions stand, too.
pub fn standing_bodies_are_right()
    ensures { (actor : Actor) → AllStand actor → RunRight actor }
{
    // it tells that a run has one end
    has_one_end();
}
