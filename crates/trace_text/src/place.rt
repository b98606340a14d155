//! Where in a line a reader stands.

use crate::line::Line;
use rvc_base::Trap;

/// What a reader keeps of the bytes since the last line feed.
#[derive(Clone, Copy, Debug)]
pub(crate) enum Place {
    /// Nothing was read.
    Start,
    /// An `r`, which is a delivery or begins the first line.
    AfterR,
    /// So many bytes of what stands before the version in the first line.
    Front {
        read: usize,
    },
    /// The letter of a line, or the version in the first one. A blank and the number come next.
    Letter {
        field: Field,
    },
    /// The blank before a number, and what number its digits so far are.
    Number {
        field: Field,
        so_far: Option<u32>,
    },
    /// All before a name of an instance's path or class.
    AtName {
        inst: u32,
        part: Part,
    },
    /// At least one byte of such a name.
    InName {
        inst: u32,
        part: Part,
    },
    /// All before the name of a trap.
    AtTrap {
        inst: u32,
        action: u16,
    },
    /// So many bytes of the name of a trap.
    InTrap {
        inst: u32,
        action: u16,
        trap: Trap,
        read: usize,
    },
    /// All of a line but its line feed.
    Ending {
        line: Line,
    },
    /// All of a line.
    Ended {
        line: Line,
    },
    /// What begins no line.
    Lost,
}

/// A number in a line, with the numbers before it.
#[derive(Clone, Copy, Debug)]
pub(crate) enum Field {
    /// In a first line of version 1.
    Instances,
    Links { instances: u32 },
    /// In a first line of version 2.
    GrowingInstances,
    GrowingLinks { instances: u32 },
    Limit { instances: u32, links: u32 },
    Instance,
    FiringInst,
    FiringAction { inst: u32 },
    TrappingInst,
    TrappingAction { inst: u32 },
    StalledInst,
    StalledAction { inst: u32 },
    StalledLink { inst: u32, action: u16 },
    GrownLink,
    GrownCapacity { link: u32 },
}

/// The two parts of an instance's line that are names.
#[derive(Clone, Copy, Debug)]
pub(crate) enum Part {
    Path,
    Class,
}
