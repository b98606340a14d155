//! What comes of bursts.

ghost use Rattle.std.specs.Prelude.{◌≡◌, ◌+◌, ◌<◌, ◌^◌};
ghost use Rattle.net_state.specs.Made.{joined, lacking_by, made_by, none_made, trapped_by};

use net_model::BurstEnd;
use rvc_base::{ActId, InstId, Trap};

/// A cell that trapped, its action, and by what.
#[derive(Clone, Copy, Debug, PartialEq, Eq)]
pub struct Trapped {
    pub inst: InstId,
    pub action: ActId,
    pub trap: Trap,
}

/// A cell whose action lacks room.
#[derive(Clone, Copy, Debug, PartialEq, Eq)]
pub struct Lacking {
    pub inst: InstId,
    pub action: ActId,
}

/// What came of the bursts of several cells.
#[derive(Clone, Copy, Debug, PartialEq, Eq)]
pub struct Bursts {
    /// How many firings were made.
    pub fired: u64,
    /// The lowest cell that trapped.
    pub trap: Option<Trapped>,
    /// The lowest cell whose burst ended because an action lacks room.
    pub lacks: Option<Lacking>,
}

/// What comes of no burst.
pub fn none_made() -> Bursts
    ensures { result ≡ none_made }
{
    Bursts {
        fired: 0,
        trap: None,
        lacks: None,
    }
}

/// What came of the burst of one cell, which made `count` firings and ended so.
pub fn made_by(inst: InstId, count: u64, end: BurstEnd) -> Bursts
    ensures { result ≡ made_by inst count end }
{
    Bursts {
        fired: count,
        trap: trapped_by(inst, end),
        lacks: lacking_by(inst, end),
    }
}

/// What came of bursts and of those of higher cells together.
pub fn joined(low: Bursts, high: Bursts) -> Bursts
    requires few { low.fired + high.fired < 2 ^ 64 }
    ensures { result ≡ joined low high }
{
    Bursts {
        fired: low.fired + high.fired,
        trap: low.trap.or(high.trap),
        lacks: low.lacks.or(high.lacks),
    }
}

/// The trap by which a burst ended, if it did.
fn trapped_by(inst: InstId, end: BurstEnd) -> Option<Trapped>
    ensures { result ≡ trapped_by inst end }
{
    match end {
        BurstEnd::Trap { action, trap } => Some(Trapped { inst, action, trap }),
        _ => None,
    }
}

/// The action by whose lack of room a burst ended, if it did.
fn lacking_by(inst: InstId, end: BurstEnd) -> Option<Lacking>
    ensures { result ≡ lacking_by inst end }
{
    match end {
        BurstEnd::NoRoom { action, port: _ } => Some(Lacking { inst, action }),
        _ => None,
    }
}
