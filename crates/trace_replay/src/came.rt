//! What comes of a line of a run.

use crate::why::Why;

/// What came of a line of the run.
#[derive(Clone, Copy, Debug)]
pub(crate) enum Came {
    /// The run goes on.
    Goes,
    /// The run ends with it.
    Ends,
    /// No run has it there.
    Fails(Why),
    /// A feed couldn't be read, the one with this number.
    FeedFails(u32),
}
