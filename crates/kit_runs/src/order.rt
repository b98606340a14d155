//! The order of links: by target, the inputs of the leaves first and then the network's outputs.

ghost use Rattle.std.specs.Prelude.{◌≡◌};
ghost use Rattle.kit_runs.specs.Links.{are_behind, are_in_order, is_before};

use net_model::{End, Link};

/// Whether one reading end comes before another.
fn is_before(end: End, other: End) -> bool
    ensures { result ≡ is_before end other }
{
    match end {
        End::Leaf { inst, port } => match other {
            End::Leaf {
                inst: behind,
                port: next,
            } => { inst.0 < behind.0 || (inst.0 == behind.0 && port < next) }
            End::Net { port: _ } => true,
        },
        End::Net { port } => match other {
            End::Leaf { inst: _, port: _ } => false,
            End::Net { port: next } => port < next,
        },
    }
}

/// Whether each of these links leads to a place behind this one.
fn are_behind(end: End, links: &[Link]) -> bool
    ensures { result ≡ are_behind end links.now }
{
    let mut rest = links;
    'links: while let Some((first, others)) = rest.split_first() {
        if !is_before(end, first.to) {
            return false;
        }
        rest = others;
    }
    true
}

/// Whether links stand in their order, so that no two lead to one place.
pub(crate) fn are_in_order(links: &[Link]) -> bool
    ensures { result ≡ are_in_order links.now }
{
    let mut rest = links;
    'links: while let Some((first, others)) = rest.split_first() {
        if !are_behind(first.to, others) {
            return false;
        }
        rest = others;
    }
    true
}
