//! The network that a file's text spells.

ghost use Rattle.std.specs.Prelude.{◌≤◌, IfErr, IfOk, length};
ghost use Rattle.rvc_io.specs.Library.{max_file_bytes};
ghost use Rattle.fnl_frames.specs.Views.{net_of};
ghost use Rattle.fnl_grammar.specs.Laws.{IsNetworkFile};
ghost use Rattle.fnl_read.specs.Network.{IsRightly, network};

use fnl_grammar::files_are_read_as_they_are_spelled;
use fnl_read::{NetFile, read_network};
use rvc_base::Front;
use std::alloc::Global;

/// The network that the text of the file of a number spells.
pub(crate) fn network_in(alloc: Global, number: u32, text: &[u8]) -> Result<NetFile, Front>
    requires { length text.now ≤ max_file_bytes }
    ensures spelled { IfOk result (λ net. IsNetworkFile text.now (net_of net)) }
    ensures refused { IfErr result (IsRightly number (network text.now)) }
{
    files_are_read_as_they_are_spelled();
    read_network(alloc, number, text)
}
