//! What the guards of an action say.

ghost use Rattle.std.specs.Prelude.{◌≡◌, ◌<◌, true, length};
ghost use Rattle.action_machine.specs.Kept.{IsMadeFor};
ghost use Rattle.lowered_actor.specs.Meaning.{has_its_tokens, is_eligible, readiness};
ghost use Rattle.guard_select.specs.Selecting.{state_of, guards_of, KeepsState};

use crate::rates::has_its_tokens;
use crate::taken::Taken;
use action_machine::{Cells, Outcome, Run};
use code_ir::Tokens;
use lowered_actor::{Lowered, laws};
use rvc_base::Trap;

/// What the guards of an action say, in their order.
#[derive(Clone, Copy, Debug, PartialEq, Eq)]
pub enum Ready {
    /// All are true.
    True,
    /// The first that isn't true is false; or the action lacks tokens.
    False,
    /// The first that isn't true traps.
    Trap(Trap),
}

/// What the guards of an action that is eligible say. If it lacks tokens no guard is run.
///
/// The state cells and the tokens stay as they are.
pub fn readiness<T: Tokens>(
    actor: &Lowered,
    a: u16,
    cells: &mut Cells,
    state: u16,
    tokens: &T,
) -> Ready
    requires made { IsMadeFor actor.now.code cells.old }
    requires state { state < actor.now.fsm.states }
    requires action { a < length actor.now.actions }
    requires eligible { is_eligible actor.now state a ≡ true }
    ensures says { guards_of result
        ≡ readiness actor.now (state_of actor.now state cells.old.numbers) (T.tokens tokens.now) a }
    ensures keeps { KeepsState actor.now cells.old cells.new }
{
    if !has_its_tokens(actor, a, tokens) {
        return Ready::False;
    }
    guards(actor, a, cells, state, tokens)
}

/// The same of an action that has its tokens.
fn guards<T: Tokens>(actor: &Lowered, a: u16, cells: &mut Cells, state: u16, tokens: &T) -> Ready
    requires made { IsMadeFor actor.now.code cells.old }
    requires state { state < actor.now.fsm.states }
    requires action { a < length actor.now.actions }
    requires eligible { is_eligible actor.now state a ≡ true }
    requires has { has_its_tokens actor.now (T.tokens tokens.now) a ≡ true }
    ensures says { guards_of result
        ≡ readiness actor.now (state_of actor.now state cells.old.numbers) (T.tokens tokens.now) a }
    ensures keeps { KeepsState actor.now cells.old cells.new }
{
    laws::runs_are_the_meaning();
    let code = actor.code();
    let action = actor.action(a);
    let taken = Taken {
        tokens,
        needs: &action.needs,
    };
    for &entry in &action.guards {
        match code.run(entry, cells, &taken) {
            Outcome::True => {}
            Outcome::Trap(trap) => return Ready::Trap(trap),
            _ => return Ready::False,
        }
    }
    Ready::True
}
