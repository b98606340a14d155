//! What comes of the growth of a link.

/// What came of a line that says that a link grows.
#[derive(Clone, Copy, Debug)]
pub(crate) enum Growth {
    /// It isn't true.
    Untrue,
    /// It is true, and the run goes on.
    Grown,
    /// It wasn't judged, since the feed with this number couldn't be read.
    Unread(u32),
}
