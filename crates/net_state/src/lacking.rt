//! The link on which an action lacks room.

ghost use Rattle.std.specs.Prelude.{◌≡◌, ◌<◌, true, false, IfNone, IfSome, length, map};
ghost use Rattle.net_state.specs.Held.{IsWorking};
ghost use Rattle.net_state.specs.Moving.{IsWriter};
ghost use Rattle.net_state.specs.Working.{HasAction, LacksOnEnd, LowestOf, NoneLacks};

use crate::places::give_at;
use net_model::{End, Firing, Link};
use rvc_base::{ActId, InstId, LinkId};

/// The lowest link on which an action of a cell lacks room.
pub(crate) fn lowest_lacking<A: Firing>(
    cells: &[A],
    links: &[Link],
    capacities: &[u32],
    waited: &[u32],
    inst: InstId,
    action: ActId,
) -> Option<LinkId>
    requires there { inst.0 < length cells.now }
    requires action { HasAction (map A.cell cells.now) inst.0 action.0 }
    requires working { IsWorking (map A.cell cells.now) links.now capacities.now waited.now }
    ensures some { IfSome result (LowestOf (map A.cell cells.now) links.now capacities.now
        waited.now inst.0 action.0) }
    ensures none { IfNone result (NoneLacks (map A.cell cells.now) links.now capacities.now
        waited.now inst.0 action.0) }
{
    let mut l = 0u32;
    while (l as usize) < links.len() {
        let at = l as usize;
        let room = capacities[at] - waited[at];
        if lacks_on(cells, &links[at].from, room, inst, action) {
            return Some(LinkId(l));
        }
        l += 1;
    }
    None
}

/// Whether a link begins at the cell, and what the action gives there passes the room.
fn lacks_on<A: Firing>(cells: &[A], from: &End, room: u32, inst: InstId, action: ActId) -> bool
    requires there { inst.0 < length cells.now }
    requires action { HasAction (map A.cell cells.now) inst.0 action.0 }
    requires writer { IsWriter (map A.cell cells.now) from.now }
    ensures yes { result ≡ true → LacksOnEnd (map A.cell cells.now) inst.0 action.0 room from.now }
    ensures no { result ≡ false
        → LacksOnEnd (map A.cell cells.now) inst.0 action.0 room from.now → ⊥ }
{
    match *from {
        End::Leaf { inst: writer, port } => {
            if writer.0 != inst.0 {
                return false;
            }
            room < give_at(cells, inst, action, port)
        }
        End::Net { port: _ } => false,
    }
}
