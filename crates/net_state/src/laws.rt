//! What holds of networks that are ready to be run.

ghost use Rattle.net_state.specs.Beginning.{ReadyCanWork};

use net_model::Meaning;

/// Cells and links that are ready to be run can work, if each link has a type of tokens and no token waits before
/// an input port to which no link leads.
pub fn ready_networks_can_work<M: Meaning>()
    ensures { ReadyCanWork M.State }
{}
