//! Which instances a round picks.

/// The policy of the rounds.
#[derive(Clone, Copy, Debug, PartialEq, Eq)]
pub enum RoundKind {
    /// Every instance, in each round.
    All,
    /// One instance a round, in turn.
    Turn,
    /// Those that a pseudo-random sequence picks, which starts from this number.
    Seed(u64),
}
