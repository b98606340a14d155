//! What holds of commands.

ghost use Rattle.cmd_network.specs.Commands.{ConformingAreNotRefused};

use fnl_source::one_library_network;
use network_check::networks_are_not_refused;

/// If a library tells of each name, a job that conforms isn't refused: neither its files nor its port words, whichever
/// ports are opened.
pub fn conforming_jobs_are_not_refused()
    ensures { ConformingAreNotRefused }
{
    networks_are_not_refused();
    one_library_network();
}
