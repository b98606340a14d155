//! What holds of all networks that a job can run.
//!
//! The law is the contract of a function that does nothing: it is proved with the crate, and can be cited.

ghost use Rattle.cmd_run_network.specs.Network.{AnyMayBeOpen};

use net_model::Meaning;

/// Cells that can be run with one wiring of a flat network can be run whichever of its ports are open.
pub fn any_ports_may_be_open<M: Meaning>()
    ensures { AnyMayBeOpen M.State }
{}
