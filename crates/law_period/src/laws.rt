//! What holds of vectors of firings and of blocked networks.
//!
//! Each law is the contract of a function that does nothing: it is proved with the crate, and can be cited.

ghost use Rattle.law_period.specs.Laws.{BlockedHasNoPeriod, CyclesHaveNoPeriod, VectorsAreMultiples};

/// Each vector that balances links is a multiple of the least one in all leaves that the links connect.
pub fn vectors_are_multiples()
    ensures { VectorsAreMultiples }
{}

/// A leaf is blocked, as the least with turns left where none may fire, exactly if no order of the turns is a period.
/// So it is if a leaf that fires is on a cycle of links on which tokens are needed: nothing lies on a link at first,
/// and no leaf of the cycle can be the first of it to fire.
pub fn blocked_has_no_period()
    ensures exact { BlockedHasNoPeriod }
    ensures cycles { CyclesHaveNoPeriod }
{}
