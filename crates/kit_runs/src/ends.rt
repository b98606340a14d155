//! What is asked of the ends of links.

ghost use Rattle.std.specs.Prelude.{◌≡◌, ◌<◌, Some, false, length, map, slice_get, true};
ghost use Rattle.std.specs.Arc.{arc_value};
ghost use Rattle.net_model.specs.Network.{is_input, is_output};
ghost use Rattle.kit_runs.specs.Fits.{HasPort, IsEnd, IsLinkFine, OnActor, ports_of};
ghost use Rattle.kit_runs.specs.Links.{HasOutKind};

use crate::rates::are_within;
use crate::sizes::is_size;
use lowered_actor::Lowered;
use net_model::{End, Link, Port, Wiring};
use rvc_base::{InstId, Scalar};
use std::sync::Arc;

/// One of these actors.
pub(crate) fn actor_at(actors: &[Arc<Lowered>], i: usize) -> &Arc<Lowered>
    requires { i < length actors.now }
    ensures { slice_get (map arc_value actors.now) i ≡ Some (arc_value result.now) }
{
    &actors[i]
}

/// How many output ports an actor has, or input ports.
fn ports_of(actor: &Lowered, gives: bool) -> u32
    ensures { result ≡ ports_of gives actor.now }
{
    if gives { actor.outs() } else { actor.ins() }
}

/// Whether an actor has this port, and no action gives more there, or takes more from it, than this.
fn has_port(actor: &Lowered, gives: bool, port: u32, capacity: u32) -> bool
    ensures { result ≡ true → HasPort gives port capacity actor.now }
{
    if port >= ports_of(actor, gives) {
        return false;
    }
    are_within(actor, gives, port, capacity)
}

/// The same of the actor of an instance, which may not be there.
#[tactic(auto, using(crate::proofs::Picked::on_actor))]
fn leaf_has_port(
    actors: &[Arc<Lowered>],
    gives: bool,
    inst: InstId,
    port: u32,
    capacity: u32,
) -> bool
    ensures { result ≡ true → OnActor (slice_get (map arc_value actors.now) inst.0)
        (HasPort gives port capacity) }
{
    let i = inst.0 as usize;
    if i >= actors.len() {
        return false;
    }
    has_port(actor_at(actors, i), gives, port, capacity)
}

/// Whether an end is there and can work with the capacity of its link. The network has so many ports.
fn is_end(actors: &[Arc<Lowered>], gives: bool, ports: usize, capacity: u32, end: End) -> bool
    ensures { result ≡ true → IsEnd gives (map arc_value actors.now) ports capacity end }
{
    match end {
        End::Leaf { inst, port } => leaf_has_port(actors, gives, inst, port, capacity),
        End::Net { port } => (port as usize) < ports,
    }
}

/// Whether a link that begins at the network doesn't end there.
fn is_inside(link: &Link) -> bool
    ensures { result ≡ true → is_input link.now ≡ true → is_output link.now ≡ false }
{
    match link.from {
        End::Leaf { inst: _, port: _ } => true,
        End::Net { port: _ } => match link.to {
            End::Leaf { inst: _, port: _ } => true,
            End::Net { port: _ } => false,
        },
    }
}

/// Whether a link to an output has the output's type.
fn has_out_kind(outs: &[Port], kind: Scalar, end: End) -> bool
    ensures { result ≡ true → HasOutKind outs.now kind end }
{
    match end {
        End::Leaf { inst: _, port: _ } => true,
        End::Net { port } => match outs.get(port as usize) {
            Some(out) => kind == out.kind,
            None => false,
        },
    }
}

/// Whether a link can be run.
pub(crate) fn is_link_fine(actors: &[Arc<Lowered>], wiring: &Wiring, link: &Link) -> bool
    ensures { result ≡ true → IsLinkFine (map arc_value actors.now) wiring.now link.now }
{
    if !is_end(actors, true, wiring.ins.len(), link.capacity, link.from) {
        return false;
    }
    if !is_end(actors, false, wiring.outs.len(), link.capacity, link.to) {
        return false;
    }
    if !is_inside(link) {
        return false;
    }
    if !has_out_kind(&wiring.outs, link.kind, link.to) {
        return false;
    }
    is_size(link.kind)
}
