//! Networks whose names are told apart, and whose ports and sizes are within their limits.

ghost use Rattle.std.specs.Prelude.{◌≡◌, map};
ghost use Rattle.fnl_tree.specs.View.{net_of, wire_of};
ghost use Rattle.test_fnl_flatten.specs.Tested.{are_bounded, are_nets_fine, is_net_fine};

use crate::told::{ends_told, parts_told};
use fnl_tree::{Net, Wire};

/// The most ports of one direction.
pub(crate) const MAX_PORTS: usize = 32;

/// The largest size that a connection may ask for.
const MAX_SIZE: u32 = 1_048_576;

/// Whether no connection asks for more than the largest size.
fn are_bounded(wires: &[Wire]) -> bool
    ensures { result ≡ are_bounded (map wire_of wires.now) }
{
    let mut rest = wires;
    'wires: while let Some((first, others)) = rest.split_first() {
        if first.size > MAX_SIZE {
            return false;
        }
        rest = others;
    }
    true
}

/// Whether this holds of a network.
fn is_net_fine(net: &Net) -> bool
    ensures { result ≡ is_net_fine (net_of net.now) }
{
    net.ins.len() <= MAX_PORTS
        && net.outs.len() <= MAX_PORTS
        && ends_told(&net.ins)
        && ends_told(&net.outs)
        && parts_told(&net.parts)
        && are_bounded(&net.wires)
}

/// Whether it holds of each network.
pub(crate) fn are_nets_fine(nets: &[Net]) -> bool
    ensures { result ≡ are_nets_fine (map net_of nets.now) }
{
    let mut rest = nets;
    'nets: while let Some((first, others)) = rest.split_first() {
        if !is_net_fine(first) {
            return false;
        }
        rest = others;
    }
    true
}
