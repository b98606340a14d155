//! What holds of files and words that conform.

ghost use Rattle.cmd_network.specs.Conforming.{OneConforms};

use fnl_source::one_library_network;

/// If a library tells of each name, its files and the words of a job are about one network at most.
pub fn one_network_conforms()
    ensures { OneConforms }
{
    one_library_network();
}
