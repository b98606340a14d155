//! What holds of all periods.
//!
//! Each law is the contract of a function that does nothing: it is proved with the crate, and can be cited.

ghost use Rattle.period_order.specs.Laws.{PeriodsEmptyLinks, LeastFirstSuffices};

/// A period leaves each link that its turns balance as empty as it found it: as many tokens were given as taken.
pub fn periods_empty_their_links()
    ensures { PeriodsEmptyLinks }
{}

/// If any order of the turns is a period, the least-first one is.
pub fn least_first_suffices()
    ensures { LeastFirstSuffices }
{}
