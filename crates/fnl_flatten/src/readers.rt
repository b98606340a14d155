//! The reading ends of a tree in link order.

ghost use Rattle.std.specs.Prelude.{◌≡◌, ◌++◌, ◌≤◌, IfOk, OnOk};
ghost use Rattle.cal_model.specs.Sound.{max_ports};
ghost use Rattle.fnl_tree.specs.View.{tree_of};
ghost use Rattle.fnl_flatten.specs.Readers as spec;
ghost use Rattle.fnl_flatten.specs.Readers.{inputs_from, outputs_from, readers_of};
ghost use Rattle.fnl_flatten.specs.View.{heads_of};
ghost use Rattle.fnl_flatten.specs.Whole.{IsWhole};

use crate::find::head_at;
use crate::head::Head;
use crate::joint::Joint;
use fnl_tree::Tree;
use rvc_base::Memory;
use std::alloc::Global;

/// Adds the inputs of an actor, so many, in port order.
fn push_inputs(readers: &mut Vec<Joint>, leaf: u32, ports: u32) -> Result<(), Memory>
    ensures { OnOk result
        (readers.new.items ≡ readers.old.items ++ inputs_from leaf 0 ports) }
{
    let mut port = 0u32;
    let mut left = ports;
    'ports: while left > 0 {
        readers.push(Joint::Leaf {
            leaf,
            input: true,
            port,
        })?;
        port += 1;
        left -= 1;
    }
    Ok(())
}

/// Adds the outputs of the top network, so many, in port order.
fn push_outputs(readers: &mut Vec<Joint>, ports: u32) -> Result<(), Memory>
    ensures { OnOk result (readers.new.items ≡ readers.old.items ++ outputs_from 0 ports) }
{
    let mut port = 0u32;
    let mut left = ports;
    'ports: while left > 0 {
        readers.push(Joint::Own {
            net: 0,
            input: false,
            port,
        })?;
        port += 1;
        left -= 1;
    }
    Ok(())
}

/// The inputs of all actors.
fn leaf_readers(alloc: Global, tree: &Tree, heads: &[Head]) -> Result<Vec<Joint>, Memory>
    requires { IsWhole (tree_of tree.now) (heads_of heads.now) }
    ensures { IfOk result (λ readers. readers.items ≡ spec.leaf_readers 0 (heads_of heads.now)) }
{
    let mut readers = Vec::new(alloc);
    let mut leaf = 0u32;
    'leaves: while let Some(head) = head_at(tree, heads, leaf) {
        push_inputs(&mut readers, leaf, head.ins.len() as u32)?;
        leaf += 1;
    }
    Ok(readers)
}

/// The inputs of all actors, and so many outputs of the top network: the reading ends in link order.
pub(crate) fn readers(
    alloc: Global,
    tree: &Tree,
    heads: &[Head],
    outs: usize,
) -> Result<Vec<Joint>, Memory>
    requires whole { IsWhole (tree_of tree.now) (heads_of heads.now) }
    requires few { outs ≤ max_ports }
    ensures { IfOk result (λ readers. readers.items ≡ readers_of (heads_of heads.now) outs) }
{
    let mut readers = leaf_readers(alloc, tree, heads)?;
    push_outputs(&mut readers, outs as u32)?;
    Ok(readers)
}
