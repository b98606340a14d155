//! Whether an action is exposed.

ghost use Rattle.std.specs.Prelude.{◌≡◌, ◌<◌, true, length};
ghost use Rattle.action_machine.specs.Kept.{IsMadeFor};
ghost use Rattle.lowered_actor.specs.Meaning.{are_true, is_eligible, is_exposed, readiness};
ghost use Rattle.guard_select.specs.Selecting.{state_of, KeepsState};

use crate::guards::{Ready, readiness};
use crate::rates::has_its_tokens;
use action_machine::Cells;
use code_ir::Tokens;
use lowered_actor::Lowered;

/// Whether an action is eligible, has its tokens, and no action above it is enabled.
///
/// The state cells and the tokens stay as they are.
pub fn is_exposed<T: Tokens>(
    actor: &Lowered,
    a: u16,
    cells: &mut Cells,
    state: u16,
    tokens: &T,
) -> bool
    requires made { IsMadeFor actor.now.code cells.old }
    requires state { state < actor.now.fsm.states }
    requires action { a < length actor.now.actions }
    ensures exposed { result ≡ is_exposed actor.now (state_of actor.now state cells.old.numbers)
        (T.tokens tokens.now) a }
    ensures keeps { KeepsState actor.now cells.old cells.new }
{
    // it tells that the automaton and the order are of the actor's actions
    let _code = actor.code();
    if !actor.fsm().eligible(state, a) || !has_its_tokens(actor, a, tokens) {
        return false;
    }
    for &b in actor.candidates(state) {
        if actor.order().above(b, a) && is_enabled(actor, b, cells, state, tokens) {
            return false;
        }
    }
    true
}

/// Whether the guards of an action that is eligible are all true, and it has its tokens.
fn is_enabled<T: Tokens>(actor: &Lowered, a: u16, cells: &mut Cells, state: u16, tokens: &T) -> bool
    requires made { IsMadeFor actor.now.code cells.old }
    requires state { state < actor.now.fsm.states }
    requires action { a < length actor.now.actions }
    requires eligible { is_eligible actor.now state a ≡ true }
    ensures enabled { result ≡ are_true
        (readiness actor.now (state_of actor.now state cells.old.numbers) (T.tokens tokens.now) a) }
    ensures keeps { KeepsState actor.now cells.old cells.new }
{
    match readiness(actor, a, cells, state, tokens) {
        Ready::True => true,
        _ => false,
    }
}
