//! A connection and the rules of its ends.

ghost use Rattle.std.specs.Prelude.{◌≡◌, [], IfErr, IfOk, Some, map};
ghost use Rattle.fnl_tree.specs.View.{net_of, part_of, tree_of, wire_of};
ghost use Rattle.fnl_flatten.specs.Named.{HasFewPorts, NameAlike};
ghost use Rattle.fnl_flatten.specs.Rules as rules;
ghost use Rattle.fnl_flatten.specs.Rules.{found};
ghost use Rattle.fnl_flatten.specs.Seen.{BreaksAt, MeetsAll, begins_at, ends_at, ends_break};
ghost use Rattle.fnl_flatten.specs.View.{heads_of};
ghost use Rattle.fnl_flatten.specs.Whole.{IsWhole};

use crate::ends::{is_nameless, source, target};
use crate::head::Head;
use crate::joint::Joint;
use crate::kinds::{kind_of, meet};
use crate::part_names::PartNames;
use fnl_tree::{Net, Tree, Wire};
use rvc_base::Rule;

/// The ends of a connection.
#[derive(Clone, Copy, Debug, PartialEq, Eq)]
pub(crate) struct Arrow {
    pub from: Joint,
    pub to: Joint,
}

/// Whether a connection names no instance.
fn is_direct(wire: &Wire) -> bool
    ensures { result ≡ rules.is_direct (wire_of wire.now) }
{
    if is_nameless(wire.src.as_str()) {
        is_nameless(wire.dst.as_str())
    } else {
        false
    }
}

/// These ends, or the rule that they break.
fn met(tree: &Tree, heads: &[Head], from: Option<Joint>, to: Option<Joint>) -> Result<Arrow, Rule>
    requires { IsWhole (tree_of tree.now) (heads_of heads.now) }
    ensures from { IfOk result (λ a. from ≡ Some a.from) }
    ensures to { IfOk result (λ a. to ≡ Some a.to) }
    ensures fine { IfOk result (λ _. MeetsAll tree.now heads.now from to) }
    ensures broken { IfErr result (λ rule. BreaksAt tree.now heads.now from to rule) }
{
    let Some(from) = from else {
        return Err(Rule::UNKNOWN_END);
    };
    let Some(to) = to else {
        return Err(Rule::UNKNOWN_END);
    };
    if meet(kind_of(tree, heads, from), kind_of(tree, heads, to)) {
        Ok(Arrow { from, to })
    } else {
        Err(Rule::BOOL_MEETS_NUMBER)
    }
}

/// The ends of a connection, or the rule that it breaks.
pub(crate) fn joined(
    tree: &Tree,
    heads: &[Head],
    number: u32,
    net: &Net,
    names: &PartNames,
    wire: &Wire,
) -> Result<Arrow, Rule>
    requires whole { IsWhole (tree_of tree.now) (heads_of heads.now) }
    requires few { HasFewPorts net.now }
    requires named { NameAlike names.now (map part_of net.now.parts.items) }
    ensures from { IfOk result
        (λ a. begins_at tree.now heads.now number net.now wire.now ≡ Some a.from) }
    ensures to { IfOk result
        (λ a. ends_at tree.now heads.now number net.now wire.now ≡ Some a.to) }
    ensures fine { IfOk result
        (λ _. ends_break tree.now heads.now number net.now wire.now ≡ []) }
    ensures broken { IfErr result
        (λ rule. ends_break tree.now heads.now number net.now wire.now
        ≡ found rule (net_of net.now) (wire_of wire.now)) }
{
    if is_direct(wire) {
        return Err(Rule::NO_ENDS);
    }
    let from = source(tree, heads, number, net, names, wire);
    let to = target(tree, heads, number, net, names, wire);
    met(tree, heads, from, to)
}
