//! How a run of code ends.

use rvc_base::Trap;

/// How a run ends.
#[derive(Clone, Copy, Debug, PartialEq, Eq)]
pub enum Outcome {
    /// A firing is done; its outputs stand in their cells.
    Done,
    /// A guard is true.
    True,
    /// A guard is false.
    False,
    /// The run is cut off.
    Trap(Trap),
}
