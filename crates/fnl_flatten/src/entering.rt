//! All connections of a tree, with the rules that they break.

ghost use Rattle.std.specs.Prelude.{◌≡◌, [], ◌++◌, IfErr, IfOk, OnOk, map};
ghost use Rattle.fnl_tree.specs.View.{part_of, tree_of};
ghost use Rattle.fnl_flatten.specs.Arrows.{entries_of};
ghost use Rattle.fnl_flatten.specs.Named.{HasFewPorts, IsCause, NameAlike};
ghost use Rattle.fnl_flatten.specs.Rules.{violations};
ghost use Rattle.fnl_flatten.specs.Seen.{all_break, all_ends_break, all_join, all_write_again, breaks, ends_break, joins, writes_again};
ghost use Rattle.fnl_flatten.specs.View.{heads_of};
ghost use Rattle.fnl_flatten.specs.Whole.{IsWhole};

use crate::arrows::joined;
use crate::fault::Fault;
use crate::find::net_at;
use crate::head::Head;
use crate::part_names::PartNames;
use crate::writers::{Writer, Writers};
use fnl_tree::{Net, Tree, Wire};
use rvc_base::Rule;
use std::alloc::Global;

/// A rule that a connection of the network breaks.
fn broken(rule: Rule, net: &Net, wire: &Wire) -> Fault
    ensures { result ≡ Fault.Broken rule net.now.file wire.now.at }
{
    Fault::Broken {
        rule,
        file: net.file,
        at: wire.at,
    }
}

/// Enters a connection, unless it breaks a rule.
fn enter_wire(
    tree: &Tree,
    heads: &[Head],
    number: u32,
    net: &Net,
    names: &PartNames,
    wire: &Wire,
    writers: &mut Writers,
) -> Result<(), Fault>
    requires whole { IsWhole (tree_of tree.now) (heads_of heads.now) }
    requires few { HasFewPorts net.now }
    requires named { NameAlike names.now (map part_of net.now.parts.items) }
    ensures entered { OnOk result (writers.new
        ≡ writers.old ++ joins tree.now heads.now number net.now wire.now) }
    ensures fine { OnOk result (ends_break tree.now heads.now number net.now wire.now ≡ []) }
    ensures once { OnOk result
        (writes_again tree.now heads.now number net.now wire.now writers.old ≡ []) }
    ensures broken { IfErr result
        (IsCause (breaks tree.now heads.now number net.now wire.now writers.old)) }
{
    let arrow = match joined(tree, heads, number, net, names, wire) {
        Ok(arrow) => arrow,
        Err(rule) => return Err(broken(rule, net, wire)),
    };
    if writers.get(arrow.to).is_some() {
        return Err(broken(Rule::SECOND_WRITER, net, wire));
    }
    let writer = Writer {
        joint: arrow.from,
        size: wire.size,
    };
    writers.add(arrow.to, writer)?;
    Ok(())
}

/// Enters connections of a network.
fn enter_wires(
    tree: &Tree,
    heads: &[Head],
    number: u32,
    net: &Net,
    names: &PartNames,
    writers: &mut Writers,
) -> Result<(), Fault>
    requires whole { IsWhole (tree_of tree.now) (heads_of heads.now) }
    requires few { HasFewPorts net.now }
    requires named { NameAlike names.now (map part_of net.now.parts.items) }
    ensures entered { OnOk result
        (writers.new ≡ writers.old ++ all_join tree.now heads.now number net.now) }
    ensures fine { OnOk result (all_ends_break tree.now heads.now number net.now ≡ []) }
    ensures once { OnOk result
        (all_write_again tree.now heads.now number net.now writers.old ≡ []) }
    ensures broken { IfErr result
        (IsCause (all_break tree.now heads.now number net.now writers.old)) }
{
    let mut rest = net.wires.as_slice();
    'wires: while let Some((wire, others)) = rest.split_first() {
        enter_wire(tree, heads, number, net, names, wire, writers)?;
        rest = others;
    }
    Ok(())
}

/// Enters all connections of a network.
fn enter_net(
    alloc: Global,
    tree: &Tree,
    heads: &[Head],
    number: u32,
    net: &Net,
    writers: &mut Writers,
) -> Result<(), Fault>
    requires whole { IsWhole (tree_of tree.now) (heads_of heads.now) }
    requires few { HasFewPorts net.now }
    ensures entered { OnOk result
        (writers.new ≡ writers.old ++ all_join tree.now heads.now number net.now) }
    ensures fine { OnOk result (all_ends_break tree.now heads.now number net.now ≡ []) }
    ensures once { OnOk result
        (all_write_again tree.now heads.now number net.now writers.old ≡ []) }
    ensures broken { IfErr result
        (IsCause (all_break tree.now heads.now number net.now writers.old)) }
{
    let names = PartNames::new(alloc, &net.parts)?;
    enter_wires(tree, heads, number, net, &names, writers)
}

/// All connections, by the joints to which they lead.
pub(crate) fn all_writers(alloc: Global, tree: &Tree, heads: &[Head]) -> Result<Writers, Fault>
    requires { IsWhole (tree_of tree.now) (heads_of heads.now) }
    ensures entered { IfOk result
        (λ writers. writers ≡ entries_of (tree_of tree.now) (heads_of heads.now)) }
    ensures fine { IfOk result
        (λ _. violations (tree_of tree.now) (heads_of heads.now) ≡ []) }
    ensures broken { IfErr result
        (IsCause (violations (tree_of tree.now) (heads_of heads.now))) }
{
    let mut writers = Writers::new(alloc);
    let mut number = 0u32;
    'nets: while let Some(net) = net_at(tree, number) {
        enter_net(alloc, tree, heads, number, net, &mut writers)?;
        number += 1;
    }
    Ok(writers)
}
