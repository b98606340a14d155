//! The limit of turns.

/// The most turns of one firing, its guards apart, and of one guard.
///
/// A turn is one round of a loop, one element of a comprehension or one call.
pub const MAX_TURNS: u32 = 1_048_576;
