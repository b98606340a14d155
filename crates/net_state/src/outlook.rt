//! Whether a network at rest can go on.

ghost use Rattle.std.specs.Prelude.{◌≡◌};
ghost use Rattle.net_state.specs.Surveyed.{after};

use net_model::Look;
use rvc_base::{ActId, InstId, LinkId};

/// What a network at rest does next, as the ends of a run judge it.
#[derive(Clone, Copy, Debug, PartialEq, Eq)]
pub enum Outlook {
    /// No cell has anything to do, whatever is left of the feeds.
    Quiet,
    /// Each cell waits or lacks room: the lowest that lacks room, its action, and the lowest link without room.
    Stalled {
        inst: InstId,
        action: ActId,
        link: LinkId,
    },
    /// Some cell fires or traps.
    Going,
}

/// What was found of the cells that were looked at so far.
#[derive(Clone, Copy)]
pub(crate) enum Survey {
    AllWait,
    /// The lowest cell that lacks room, and its action. Each of the others waits or lacks room too.
    Lacks { inst: InstId, action: ActId },
    /// A cell that fires or whose guards trap.
    Moves { inst: InstId },
}

/// What is found once one cell more was looked at.
pub(crate) fn with_look(found: Survey, inst: InstId, look: Look) -> Survey
    ensures { result ≡ after found inst.0 look }
{
    match found {
        Survey::AllWait => first_look(inst, look),
        Survey::Lacks {
            inst: lowest,
            action,
        } => later_look(lowest, action, inst, look),
        Survey::Moves { inst } => Survey::Moves { inst },
    }
}

/// The same if all cells before wait.
fn first_look(inst: InstId, look: Look) -> Survey
    ensures { result ≡ after Survey.AllWait inst.0 look }
{
    match look {
        Look::Waits => Survey::AllWait,
        Look::NoRoom { action, port: _ } => Survey::Lacks { inst, action },
        Look::Ready(_) | Look::GuardTrap(_, _) => Survey::Moves { inst },
    }
}

/// The same if a cell before lacks room.
fn later_look(lowest: InstId, action: ActId, inst: InstId, look: Look) -> Survey
    ensures { result ≡ after (Survey.Lacks lowest action) inst.0 look }
{
    match look {
        Look::Waits | Look::NoRoom { action: _, port: _ } => Survey::Lacks {
            inst: lowest,
            action,
        },
        Look::Ready(_) | Look::GuardTrap(_, _) => Survey::Moves { inst },
    }
}
