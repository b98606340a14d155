//! The ports of the actors at leaves.

ghost use Rattle.std.specs.Prelude.{◌≡◌, ◌<◌, IfOk, map};
ghost use Rattle.cal_model.specs.Sound.{Each, IsSound};
ghost use Rattle.cal_model.specs.View.{actor_of, port_view};
ghost use Rattle.fnl_flatten.specs.View.{head_of as told_head, head_port_of, heads_of};
ghost use Rattle.fnl_source.specs.Actors.{head_of};
ghost use Rattle.check_leaves.specs.Leaves.{IsWithin, actors_at_leaves, distinct_actors};

use crate::found::LeafActors;
use crate::rates::{most_given, most_taken};
use cal_model::{Bound, Port};
use fnl_flatten::{Head, HeadPort};
use rvc_base::Memory;
use std::alloc::Global;

/// A port with its largest rate.
fn port_of(alloc: Global, port: &Port, largest: u32) -> Result<HeadPort, Memory>
    ensures { IfOk result (λ told. head_port_of told
        ≡ record { name = (port_view port.now).name; kind = port.now.kind; largest = largest }) }
{
    let name = String::from_str(alloc, port.name.as_str())?;
    Ok(HeadPort {
        name,
        kind: port.kind,
        largest,
    })
}

/// The input ports of an actor.
fn ins_of(alloc: Global, b: &Bound) -> Result<Vec<HeadPort>, Memory>
    requires { IsSound (actor_of b.now) }
    ensures { IfOk result (λ ports. map head_port_of ports.items ≡ (head_of (actor_of b.now)).ins) }
{
    let mut ports = Vec::new(alloc);
    let mut rest = b.ins.as_slice();
    let mut number = 0u32;
    'ports: while let Some((first, others)) = rest.split_first() {
        let port = port_of(alloc, first, most_taken(b, number))?;
        ports.push(port)?;
        number += 1;
        rest = others;
    }
    Ok(ports)
}

/// The output ports of an actor.
fn outs_of(alloc: Global, b: &Bound) -> Result<Vec<HeadPort>, Memory>
    requires { IsSound (actor_of b.now) }
    ensures { IfOk result (λ ports. map head_port_of ports.items ≡ (head_of (actor_of b.now)).outs) }
{
    let mut ports = Vec::new(alloc);
    let mut rest = b.outs.as_slice();
    let mut number = 0u32;
    'ports: while let Some((first, others)) = rest.split_first() {
        let port = port_of(alloc, first, most_given(b, number))?;
        ports.push(port)?;
        number += 1;
        rest = others;
    }
    Ok(ports)
}

/// The ports of an actor: names, types, and the most tokens that a firing takes or gives there.
///
/// # Errors
///
/// `Memory` if memory runs out.
pub fn head_of(alloc: Global, b: &Bound) -> Result<Head, Memory>
    requires { IsSound (actor_of b.now) }
    ensures { IfOk result (λ head. told_head head ≡ head_of (actor_of b.now)) }
{
    let ins = ins_of(alloc, b)?;
    let outs = outs_of(alloc, b)?;
    Ok(Head { ins, outs })
}

/// The ports of the actor at each leaf: names, types, and the most tokens that a firing takes or gives there (CAL Language
/// Report, input patterns and output expressions).
///
/// # Errors
///
/// `Memory` if memory runs out.
pub fn heads(alloc: Global, found: &LeafActors) -> Result<Vec<Head>, Memory>
    requires sound { Each IsSound (distinct_actors found.now) }
    requires within { IsWithin found.now }
    ensures { IfOk result (λ heads. heads_of heads.items ≡ map head_of (actors_at_leaves found.now)) }
{
    let mut heads = Vec::new(alloc);
    let mut rest = found.of_leaf.as_slice();
    'leaves: while let Some((place, others)) = rest.split_first() {
        heads.push(head_of(alloc, &found.actors[*place as usize])?)?;
        rest = others;
    }
    Ok(heads)
}
