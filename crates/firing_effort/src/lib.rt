//! How much work an actor did in a burst.
//!
//! Who shares actors among threads wants to know which of them are worth it. [`Effort`] counts, and nothing depends on
//! the count but time: no promise is made of it.
#![tactic(auto)]

use net_model::Firing;

/// An actor at work that counts what it does.
pub trait Effort: Firing {
    /// How much work was done since the last `clear`, in units of about one firing. If nothing better is known it is the
    /// number of firings in the journal. Nothing is promised of it but that it is a number, so it may steer what
    /// is done where, and never what is done.
    fn effort(&self) -> u64 {
        self.journal().len() as u64
    }
}
