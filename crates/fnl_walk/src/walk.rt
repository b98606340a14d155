//! How a walk stands.

ghost use Rattle.std.specs.Prelude.{◌≡◌, ◌<◌, OnOk, length, map, string_bytes};
ghost use Rattle.fnl_tree.specs.View.{net_of};
ghost use Rattle.fnl_walk.specs.InMemory.{with_new_part};

use fnl_tree::{Inner, Leaf, Net, Part};
use fnl_values::Visit;
use rvc_base::Memory;
use std::alloc::Global;
use std::collections::VecDeque;

/// A network that is open.
#[derive(Drop)]
pub(crate) struct Open<'a> {
    /// The number of its file.
    pub file: u32,
    /// The ids of the instances that lead to it.
    pub path: String,
    /// Its place in the tree.
    pub number: usize,
    /// How many networks may still stand in each other inside it.
    pub levels: usize,
    /// The instances that weren't visited yet.
    pub visits: VecDeque<Visit<'a>>,
}

/// How a walk stands.
#[derive(Drop)]
pub(crate) struct Walk<'a> {
    pub alloc: Global,
    /// The networks that are open, the innermost last.
    pub open_nets: Vec<Open<'a>>,
    /// Their classes.
    pub above: Vec<String>,
    /// The networks and the actors that were found. The parts of open networks are those that were visited.
    pub nets: Vec<Net>,
    pub leaves: Vec<Leaf>,
}

/// Adds a part to the network of a number.
pub(crate) fn add_part(
    nets: &mut Vec<Net>,
    number: usize,
    id: String,
    inner: Inner,
) -> Result<(), Memory>
    requires { number < length nets.old.items }
    ensures { OnOk result (map net_of nets.new.items
        ≡ with_new_part number (string_bytes id) inner (map net_of nets.old.items)) }
{
    nets[number].parts.push(Part { id, inner })?;
    Ok(())
}
