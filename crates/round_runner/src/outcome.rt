//! How rounds go, and how a run ends.

use rvc_base::{ActId, InstId, LinkId, Trap};

/// By what rounds are made.
#[derive(Clone, Copy, Debug, PartialEq, Eq)]
pub struct Plan {
    /// On how many workers cells fire: 1 to 64.
    pub workers: u32,
    /// How often an instance may fire in a round: 1 to 65,536.
    pub burst: u32,
    /// The greatest capacity to which a link may grow at a stall; 0 if none may grow.
    pub grow: u32,
}

/// What came of a round.
#[derive(Clone, Copy, Debug, PartialEq, Eq)]
pub enum RoundEnd {
    /// So many firings were made, at least one.
    Fired(u64),
    /// Not all instances were picked, and nothing fired.
    Idle,
    /// The run ended.
    End(RunEnd),
    /// All instances were picked and each waits or lacks room: a link grew to this capacity.
    Grew { link: LinkId, capacity: u32 },
}

/// How a run ends.
#[derive(Clone, Copy, Debug, PartialEq, Eq)]
pub enum RunEnd {
    /// No instance has anything to do, whatever is left of the feeds.
    Quiet,
    /// An action traps.
    Trapped {
        inst: InstId,
        action: ActId,
        trap: Trap,
    },
    /// Each instance waits or lacks room: the lowest that lacks room, its action, and the lowest link without room.
    Stalled {
        inst: InstId,
        action: ActId,
        link: LinkId,
    },
    /// As many firings were made as were allowed, and there is more to do.
    Budget,
    /// A feed couldn't be read.
    ReadFault {
        feed: u32,
    },
    /// A channel couldn't be written.
    WriteFault {
        channel: u32,
    },
}
