//! Names that are told apart.

ghost use Rattle.std.specs.Prelude.{◌≡◌, map};
ghost use Rattle.fnl_flatten.specs.Head.{head_names};
ghost use Rattle.fnl_flatten.specs.Joints.{own_names};
ghost use Rattle.fnl_flatten.specs.View.{head_port_of};
ghost use Rattle.fnl_tree.specs.View.{own_of, part_of};
ghost use Rattle.test_fnl_flatten.specs.Tested.{are_told, is_among, part_ids};

use fnl_flatten::HeadPort;
use fnl_tree::{NetEnd, Part};

/// Whether one of these ports of a network has the name.
fn is_end(name: &str, ends: &[NetEnd]) -> bool
    ensures { result ≡ is_among name.now (own_names (map own_of ends.now)) }
{
    let mut rest = ends;
    'ends: while let Some((first, others)) = rest.split_first() {
        if first.name.as_str() == name {
            return true;
        }
        rest = others;
    }
    false
}

/// Whether no two of these ports of a network have one name.
pub(crate) fn ends_told(ends: &[NetEnd]) -> bool
    ensures { result ≡ are_told (own_names (map own_of ends.now)) }
{
    let mut rest = ends;
    'ends: while let Some((first, others)) = rest.split_first() {
        if is_end(first.name.as_str(), others) {
            return false;
        }
        rest = others;
    }
    true
}

/// Whether one of these instances has the id.
fn is_part(id: &str, parts: &[Part]) -> bool
    ensures { result ≡ is_among id.now (part_ids (map part_of parts.now)) }
{
    let mut rest = parts;
    'parts: while let Some((first, others)) = rest.split_first() {
        if first.id.as_str() == id {
            return true;
        }
        rest = others;
    }
    false
}

/// Whether no two of these instances have one id.
pub(crate) fn parts_told(parts: &[Part]) -> bool
    ensures { result ≡ are_told (part_ids (map part_of parts.now)) }
{
    let mut rest = parts;
    'parts: while let Some((first, others)) = rest.split_first() {
        if is_part(first.id.as_str(), others) {
            return false;
        }
        rest = others;
    }
    true
}

/// Whether one of these ports of an actor has the name.
fn is_port(name: &str, ports: &[HeadPort]) -> bool
    ensures { result ≡ is_among name.now (head_names (map head_port_of ports.now)) }
{
    let mut rest = ports;
    'ports: while let Some((first, others)) = rest.split_first() {
        if first.name.as_str() == name {
            return true;
        }
        rest = others;
    }
    false
}

/// Whether no two of these ports of an actor have one name.
pub(crate) fn ports_told(ports: &[HeadPort]) -> bool
    ensures { result ≡ are_told (head_names (map head_port_of ports.now)) }
{
    let mut rest = ports;
    'ports: while let Some((first, others)) = rest.split_first() {
        if is_port(first.name.as_str(), others) {
            return false;
        }
        rest = others;
    }
    true
}
