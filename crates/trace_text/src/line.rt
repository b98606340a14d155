//! The lines of a trace.

use rvc_base::Trap;

/// A line of a trace.
#[derive(Clone, Copy, Debug, PartialEq, Eq)]
pub enum Line {
    /// The first line: how many instances and links the network has, and up to which capacity links grow at a
    /// stall. Without growth, which is 0, the trace is of version 1, else of version 2.
    Header {
        instances: u32,
        links: u32,
        grow: u32,
    },
    /// An instance, with its path and its class.
    Inst {
        inst: u32,
    },
    /// An instance fires an action.
    Fire {
        inst: u32,
        action: u16,
    },
    /// A delivery: everything sent inside arrives, and input links are filled.
    Deliver,
    /// At a stall a link gets a greater capacity.
    Grow {
        link: u32,
        capacity: u32,
    },
    /// The run ends: no instance has anything to do.
    Quiet,
    /// The run ends: an action traps.
    Trap {
        inst: u32,
        action: u16,
        trap: Trap,
    },
    /// The run ends: an action lacks room on a link, and no instance can fire.
    Stall {
        inst: u32,
        action: u16,
        link: u32,
    },
    /// The run ends: its budget of firings is spent.
    Budget,
}
