//! A walk along edges, depth first.

ghost use Rattle.std.specs.Prelude.{◌≡◌, IfOk, OnOk, map};
ghost use Rattle.cal_imports.specs.Answer.{Answers};
ghost use Rattle.cal_imports.specs.GraphView.{edge_of, node};
ghost use Rattle.cal_imports.specs.Walk.{begun, entering, leaving, order_from, past, step, with_inner};
ghost use Rattle.cal_imports.specs.WalkView.{GoesTo, StepsTo, entered_under, following, graph_view, leaving_inside, open_of, stepping_at, walk_view};

use crate::fault::{ImportFault, refused};
use crate::graph::{Edge, Node, Nodes};
use cal_scope::NameSet;
use rvc_base::{Memory, Rule};
use std::alloc::Global;

/// Nodes, and the rules that are broken by an edge to no node, and by one that leads back.
#[derive(Clone, Copy)]
pub(crate) struct Graph<'a> {
    pub nodes: &'a Nodes,
    pub missing: Rule,
    pub circle: Rule,
}

/// A node that was entered and not left, and its edges that weren't followed yet.
#[derive(Clone, Copy, Drop)]
pub(crate) struct Open<'a> {
    pub name: &'a str,
    pub file: u32,
    pub rest: &'a [Edge],
}

/// How a walk stands.
#[derive(Drop)]
pub(crate) struct Walk<'a> {
    /// The nodes that are open, the innermost last.
    pub open_nodes: Vec<Open<'a>>,
    /// All that were entered.
    pub entered: NameSet,
    /// Those that were left, in this order.
    pub left: NameSet,
}

impl<'a> Walk<'a> {
    /// A walk that begins with one open node.
    fn begun(alloc: Global, here: Open<'a>) -> Result<Walk<'a>, Memory>
        ensures { IfOk result (λ walk. walk_view walk ≡ begun (open_of here.entry)) }
    {
        let mut open_nodes = Vec::new(alloc);
        open_nodes.push(here)?;
        let mut entered = NameSet::new(alloc);
        entered.add(here.name)?;
        Ok(Walk {
            open_nodes,
            entered,
            left: NameSet::new(alloc),
        })
    }
}

/// Opens a node inside those that are open.
fn open_node<'a>(walk: &mut Walk<'a>, here: Open<'a>) -> Result<(), Memory>
    ensures { OnOk result (walk_view walk.new ≡ with_inner (open_of here.entry) (walk_view walk.old)) }
{
    walk.open_nodes.push(here)?;
    Ok(())
}

/// Leaves a node.
fn leave<'a>(walk: &mut Walk<'a>, name: &str) -> Result<(), Memory>
    ensures { OnOk result (walk_view walk.new ≡ leaving name.now (walk_view walk.old)) }
{
    walk.left.add(name)
}

/// A node with the edges that weren't followed yet.
fn past<'a>(here: Open<'a>, rest: &'a [Edge]) -> Open<'a>
    ensures { open_of result ≡ past (open_of here.entry) (map edge_of rest.entry.now) }
{
    Open {
        name: here.name,
        file: here.file,
        rest,
    }
}

/// A node that is entered.
fn entering<'a>(name: &'a str, target: &'a Node) -> Open<'a>
    ensures { open_of result ≡ entering (node name.entry.now target.entry.now) }
{
    Open {
        name,
        file: target.file,
        rest: &target.edges,
    }
}

/// Enters a node from an edge of an open one.
fn enter<'a>(
    walk: &mut Walk<'a>,
    from: Open<'a>,
    name: &'a str,
    target: &'a Node,
) -> Result<(), Memory>
    ensures { OnOk result (walk_view walk.new
        ≡ entered_under name.entry.now target.entry.now from.entry walk.old) }
{
    walk.entered.add(name)?;
    open_node(walk, from)?;
    open_node(walk, entering(name, target))
}

/// Follows an edge of an open node, behind which the rest stand.
fn follow<'a>(
    graph: Graph<'a>,
    walk: &mut Walk<'a>,
    here: Open<'a>,
    edge: &'a Edge,
    rest: &'a [Edge],
) -> Result<(), ImportFault>
    ensures { GoesTo result walk.new
        (following graph.entry here.entry edge.entry.now rest.entry.now walk.old) }
{
    let name = edge.to.as_str();
    if walk.left.has(name) {
        open_node(walk, past(here, rest))?;
        return Ok(());
    }
    if walk.entered.has(name) {
        return Err(refused(graph.circle, here.file, edge.at));
    }
    match graph.nodes.find(name) {
        Some(node) => {
            enter(walk, past(here, rest), name, node)?;
            Ok(())
        }
        None => Err(refused(graph.missing, here.file, edge.at)),
    }
}

/// Leaves a node inside those that are open, if there are some; whether there are.
fn leave_inside<'a>(walk: &mut Walk<'a>, name: &str) -> Result<bool, ImportFault>
    ensures { StepsTo result walk.new (leaving_inside name.now walk.old) }
{
    if walk.open_nodes.is_empty() {
        return Ok(false);
    }
    leave(walk, name)?;
    Ok(true)
}

/// A step from the innermost open node, inside those that are open; whether there is one.
fn step_at<'a>(graph: Graph<'a>, walk: &mut Walk<'a>, here: Open<'a>) -> Result<bool, ImportFault>
    ensures { StepsTo result walk.new (stepping_at graph.entry here.entry walk.old) }
{
    match here.rest.split_first() {
        Some((edge, rest)) => {
            follow(graph, walk, here, edge, rest)?;
            Ok(true)
        }
        None => leave_inside(walk, here.name),
    }
}

/// One step; whether there is one.
fn step<'a>(graph: Graph<'a>, walk: &mut Walk<'a>) -> Result<bool, ImportFault>
    ensures { StepsTo result walk.new (step (graph_view graph.entry) (walk_view walk.old)) }
{
    match walk.open_nodes.pop() {
        Some(here) => step_at(graph, walk, here),
        None => Ok(false),
    }
}

/// The nodes to which the edges of an open node lead, each behind those to which it leads itself.
pub(crate) fn order_from<'a>(
    alloc: Global,
    graph: Graph<'a>,
    here: Open<'a>,
) -> Result<NameSet, ImportFault>
    ensures { Answers (λ left. left) result (order_from (graph_view graph.entry) (open_of here.entry)) }
{
    let mut walk = Walk::begun(alloc, here)?;
    'steps: while step(graph, &mut walk)? {}
    Ok(walk.left)
}
