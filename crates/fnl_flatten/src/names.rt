//! Ports by their names.

ghost use Rattle.std.specs.Prelude.{◌≡◌, ◌≤◌, length, map};
ghost use Rattle.cal_model.specs.Sound.{max_ports};
ghost use Rattle.fnl_tree.specs.View.{own_of};
ghost use Rattle.fnl_flatten.specs.Head.{head_names};
ghost use Rattle.fnl_flatten.specs.Joints.{own_names, place_of};
ghost use Rattle.fnl_flatten.specs.View.{head_port_of};

use crate::head::HeadPort;
use fnl_tree::NetEnd;

/// The number of the port of a network that has this name.
pub(crate) fn own_port(ports: &[NetEnd], name: &str) -> Option<u32>
    requires { length ports.now ≤ max_ports }
    ensures { result ≡ place_of name.now (own_names (map own_of ports.now)) }
{
    let mut place = 0u32;
    let mut rest = ports;
    'ports: while let Some((first, others)) = rest.split_first() {
        if first.name.as_str() == name {
            return Some(place);
        }
        place += 1;
        rest = others;
    }
    None
}

/// The number of the port of an actor that has this name.
pub(crate) fn head_port(ports: &[HeadPort], name: &str) -> Option<u32>
    requires { length ports.now ≤ max_ports }
    ensures { result ≡ place_of name.now (head_names (map head_port_of ports.now)) }
{
    let mut place = 0u32;
    let mut rest = ports;
    'ports: while let Some((first, others)) = rest.split_first() {
        if first.name.as_str() == name {
            return Some(place);
        }
        place += 1;
        rest = others;
    }
    None
}
