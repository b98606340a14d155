//! What holds of all runs by a runner.
//!
//! The law is the contract of a function that does nothing: it is proved with the crate, and can be cited.

ghost use Rattle.network_runner.specs.FromStart.{RunsArePaced};

use net_model::Meaning;

/// The lines of a run by a runner that has made no round yet, from a state in which a run may begin, are paced. They play
/// and keep the capacities, and the last one is that of its end. If a feed couldn't be read they are begun, and if a
/// channel couldn't be written each channel holds a prefix of what begun or paced lines give.
pub fn runs_are_paced<M: Meaning>()
    ensures { RunsArePaced M.State }
{}
