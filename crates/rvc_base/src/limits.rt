//! The limits of a run.

/// The most firings that a run may make.
pub const MAX_BUDGET: u64 = 1_000_000_000_000;
