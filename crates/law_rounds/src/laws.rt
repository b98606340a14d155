//! What holds of the number of rounds of all runs.
//!
//! Each law is the contract of a function that does nothing: it is proved with the crate, and can be cited.

ghost use Rattle.law_rounds.specs.Bounds.{BegunRoundsAreFew, FiringsBoundRounds, GrowthsAreFew, PacedRoundsAreFew};

use net_model::Meaning;

/// A run has at most two rounds for each firing, one for each growth of a link, and two more, whatever its network,
/// its pace and the state in which it begins; and one less before its last round.
pub fn rounds_are_few<M: Meaning>()
    ensures begun { BegunRoundsAreFew M.State }
    ensures paced { PacedRoundsAreFew M.State }
{}

/// A link that can hold a token grows at most 20 times in lines that play, if links may grow to 1,048,576 or less:
/// each growth doubles its capacity, or brings it to the limit.
pub fn links_grow_few_times<M: Meaning>()
    ensures { GrowthsAreFew M.State }
{}

/// So firings bound the rounds of a run: if each link can hold a token, and may grow to 1,048,576 or less, there are
/// at most two for each firing, 20 for each link, and two more.
pub fn firings_bound_rounds<M: Meaning>()
    ensures { FiringsBoundRounds M.State }
{}
