//! The body of one firing.

ghost use Rattle.std.specs.Prelude.{◌<◌, IfNone, IfSome, length};
ghost use Rattle.action_machine.specs.Kept.{IsMadeFor};
ghost use Rattle.actor_cell.specs.Acting.{IsAble, IsCutOff, IsDone};

use action_machine::{Cells, Outcome, Run};
use code_ir::Tokens;
use guard_select::Taken;
use lowered_actor::{Lowered, laws};
use rvc_base::Trap;

/// Evaluates the locals, the body and the outputs of an action that is eligible and has its tokens. The new state and the
/// tokens to send are left in the cells; or the run is cut off by a trap.
pub(crate) fn evaluate<T: Tokens>(
    actor: &Lowered,
    a: u16,
    cells: &mut Cells,
    state: u16,
    tokens: &T,
) -> Option<Trap>
    requires made { IsMadeFor actor.now.code cells.old }
    requires state { state < actor.now.fsm.states }
    requires action { a < length actor.now.actions }
    requires able { IsAble actor.now state (T.tokens tokens.now) a }
    ensures done { IfNone result (IsDone actor.now state a (T.tokens tokens.now)
        cells.old.numbers cells.new.numbers) }
    ensures cut_off { IfSome result (IsCutOff actor.now state a (T.tokens tokens.now)
        cells.old.numbers) }
    ensures made { IsMadeFor actor.now.code cells.new }
{
    laws::runs_are_the_meaning();
    let code = actor.code();
    let action = actor.action(a);
    let taken = Taken {
        tokens,
        needs: &action.needs,
    };
    match code.run(action.fire, cells, &taken) {
        Outcome::Trap(trap) => Some(trap),
        _ => None,
    }
}
