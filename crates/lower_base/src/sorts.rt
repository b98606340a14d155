//! Which single values are meant.

/// Which single values are meant.
#[derive(Clone, Copy, Debug, PartialEq, Eq)]
pub enum Sort {
    /// Numbers and truth values.
    Any,
    /// Truth values alone.
    Truths,
}
