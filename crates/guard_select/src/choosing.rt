//! The choice of the action to fire.

ghost use Rattle.std.specs.Prelude.{◌≡◌, ◌<◌};
ghost use Rattle.action_machine.specs.Kept.{IsMadeFor};
ghost use Rattle.lowered_actor.specs.Meaning.{choice};
ghost use Rattle.guard_select.specs.Selecting.{state_of, chosen_of, KeepsState};

use crate::guards::{Ready, readiness};
use action_machine::Cells;
use code_ir::Tokens;
use lowered_actor::Lowered;
use rvc_base::{ActId, Trap};

/// Which action is to fire.
#[derive(Clone, Copy, Debug, PartialEq, Eq)]
pub enum Choice {
    /// This one: it is exposed and enabled.
    Fire(ActId),
    /// None: no eligible action has its tokens and guards that are true or trap.
    Wait,
    /// None, since the guards of this one, which is exposed, trap.
    Trap(ActId, Trap),
}

/// The first action of the line that is eligible in the state, has its tokens, and whose guards aren't false.
///
/// Only the actions that are eligible in the state are looked at. The state cells and the tokens stay as they are.
pub fn select<T: Tokens>(actor: &Lowered, cells: &mut Cells, state: u16, tokens: &T) -> Choice
    requires made { IsMadeFor actor.now.code cells.old }
    requires state { state < actor.now.fsm.states }
    ensures choice { chosen_of result
        ≡ choice actor.now (state_of actor.now state cells.old.numbers) (T.tokens tokens.now) }
    ensures keeps { KeepsState actor.now cells.old cells.new }
{
    // it tells the facts of lowered actors
    let _code = actor.code();
    for &a in actor.candidates(state) {
        match readiness(actor, a, cells, state, tokens) {
            Ready::True => return Choice::Fire(ActId(a)),
            Ready::False => {}
            Ready::Trap(trap) => return Choice::Trap(ActId(a), trap),
        }
    }
    Choice::Wait
}
