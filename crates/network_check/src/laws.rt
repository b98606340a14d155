//! What holds of tops and of networks that were checked.

ghost use Rattle.network_check.specs.Checked.{CheckedAreOne};
ghost use Rattle.network_check.specs.Laws.{NetworksAreNotRefused, NetworksBreakNothing};
ghost use Rattle.network_check.specs.Top.{TopsAreRead};

use cal_model::one_line;
use fnl_files::one_outcome;
use fnl_source::{one_library_network, one_network};

/// The file that is read for a top of the words is that of exactly its name.
pub fn tops_are_read_by_name()
    ensures { TopsAreRead }
{}

/// What was checked is at most one network.
pub fn checked_are_one_network()
    ensures { CheckedAreOne }
{
    one_line();
}

/// Files that mean a network from a class down break no rule (`files`). If a library tells of each name and has a network
/// of a top, nothing refuses it (`library`).
pub fn networks_are_not_refused()
    ensures files { NetworksBreakNothing }
    ensures library { NetworksAreNotRefused }
{
    one_network();
    one_library_network();
    one_outcome();
}
