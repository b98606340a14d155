//! What holds of paced and begun lines.
//!
//! Each law is the contract of a function that does nothing: it is proved with the crate, and can be cited.

ghost use Rattle.net_model.specs.PacingLaws.{BegunBeginPaced, BegunKeep, BegunPlay, BegunWithinBudget, PacedAreOne, PacedKeep, PacedPlay, PacedWithinBudget, StartsCanBegin};

use crate::laws::Meaning;

/// The lines that the rounds of a run write play from the state in which it begins, also before its end.
pub fn paced_lines_play<M: Meaning>()
    ensures begun { BegunPlay M.State }
    ensures paced { PacedPlay M.State }
{}

/// At most one list of lines is paced, and lines that are begun are a prefix of it, if every leaf's behaviour
/// is lawful.
pub fn paced_lines_are_one<M: Meaning>()
    ensures one { PacedAreOne M.State }
    ensures prefix { BegunBeginPaced M.State }
{}

/// Paced lines have at most as many firings as the budget, and begun lines have as many as aren't left of it.
pub fn paced_lines_keep_the_budget<M: Meaning>()
    ensures begun { BegunWithinBudget M.State }
    ensures paced { PacedWithinBudget M.State }
{}

/// Paced and begun lines keep the capacities of the links, if the network is wired, every leaf's behaviour is
/// lawful and the run may begin in its state, as it may at the start of a run over files.
pub fn paced_lines_keep_capacities<M: Meaning>()
    ensures start { StartsCanBegin M.State }
    ensures begun { BegunKeep M.State }
    ensures paced { PacedKeep M.State }
{}
