//! Whether functions and procedures call themselves.
#![tactic(auto, using(crate::proofs::Answered::refused_on))]

ghost use Rattle.std.specs.Prelude.{◌≡◌, IfOk, OnOk, map};
ghost use Rattle.cal_ast.specs.View.{function_tree, member_tree, procedure_tree};
ghost use Rattle.cal_scope.specs.Asked.{members_tree};
ghost use Rattle.cal_imports.specs.Answer.{Answers};
ghost use Rattle.cal_imports.specs.GraphView.{edge_of, node_of};
ghost use Rattle.cal_imports.specs.Recursion.{call_order, edge_to, routine_node, routines, with_outer_routines, with_routine, with_routines, without_recursion};
ghost use Rattle.cal_imports.specs.ScopeView.{outer_fun, scope_view};
ghost use Rattle.cal_imports.specs.Walk.{with_node};

use crate::calls::Calls;
use crate::fault::ImportFault;
use crate::graph::{Edge, Node, Nodes};
use crate::scope::{OuterFun, Scope};
use crate::stmt_calls::{add_function, add_procedure};
use crate::walk::{Graph, Open, order_from};
use cal_ast::{Function, Member, Procedure};
use cal_scope::NameSet;
use indexmap::map::Slice;
use rvc_base::{Memory, Rule};
use std::alloc::Global;

/// Adds a function of a full name.
fn add_function_node(
    alloc: Global,
    nodes: &mut Nodes,
    name: &str,
    file: u32,
    f: &Function,
) -> Result<(), Memory>
    ensures { OnOk result (nodes.new
        ≡ with_node (routine_node name.now file (function_tree f.now)) nodes.old) }
{
    let mut calls = Calls::none(alloc);
    add_function(&mut calls, f)?;
    nodes.add(name, file, calls.found)
}

/// Adds a procedure of a name.
fn add_procedure_node(
    alloc: Global,
    nodes: &mut Nodes,
    name: &str,
    file: u32,
    p: &Procedure,
) -> Result<(), Memory>
    ensures { OnOk result (nodes.new
        ≡ with_node (routine_node name.now file (procedure_tree p.now)) nodes.old) }
{
    let mut calls = Calls::none(alloc);
    add_procedure(&mut calls, p)?;
    nodes.add(name, file, calls.found)
}

/// Adds a member that is a function or a procedure.
fn add_routine(alloc: Global, nodes: &mut Nodes, file: u32, m: &Member) -> Result<(), Memory>
    ensures { OnOk result (nodes.new ≡ with_routine file (member_tree m.now) nodes.old) }
{
    match m {
        Member::Function(f) => add_function_node(alloc, nodes, f.name.text.as_str(), file, f),
        Member::Procedure(p) => add_procedure_node(alloc, nodes, p.name.text.as_str(), file, p),
        Member::Var(_) => Ok(()),
        Member::Action(_) => Ok(()),
        Member::Schedule(_) => Ok(()),
        Member::Priority(_) => Ok(()),
    }
}

/// Adds the functions and procedures among members.
fn add_routines(
    alloc: Global,
    nodes: &mut Nodes,
    file: u32,
    members: &[Member],
) -> Result<(), Memory>
    ensures { OnOk result (nodes.new ≡ with_routines file (members_tree members.now) nodes.old) }
{
    let mut rest = members;
    'members: while let Some((first, others)) = rest.split_first() {
        add_routine(alloc, nodes, file, first)?;
        rest = others;
    }
    Ok(())
}

/// Adds functions of other files.
fn add_outer_routines(alloc: Global, nodes: &mut Nodes, funs: &[OuterFun]) -> Result<(), Memory>
    ensures { OnOk result (nodes.new ≡ with_outer_routines (map outer_fun funs.now) nodes.old) }
{
    let mut rest = funs;
    'funs: while let Some((first, others)) = rest.split_first() {
        add_function_node(alloc, nodes, first.name.as_str(), first.file, &first.decl)?;
        rest = others;
    }
    Ok(())
}

/// All functions and procedures.
fn routines(alloc: Global, scope: &Scope) -> Result<Nodes, Memory>
    ensures { IfOk result (λ nodes. nodes ≡ routines (scope_view scope.now)) }
{
    let mut nodes = Nodes::new(alloc);
    add_routines(alloc, &mut nodes, scope.file, &scope.actor.members)?;
    add_outer_routines(alloc, &mut nodes, &scope.funs)?;
    Ok(nodes)
}

/// An edge to each node.
fn edges_to(alloc: Global, nodes: Slice<String, Node>) -> Result<Vec<Edge>, Memory>
    ensures { IfOk result (λ edges. map edge_of edges.items ≡ map edge_to (map node_of nodes.entry)) }
{
    let mut edges = Vec::new(alloc);
    let mut rest = nodes;
    'nodes: while let Some((first, others)) = rest.split_first() {
        let (name, _) = first;
        let to = String::from_str(alloc, name.as_str())?;
        edges.push(Edge { to, at: 0 })?;
        rest = others;
    }
    Ok(edges)
}

/// All routines, each behind those that it calls.
fn call_order(alloc: Global, file: u32, nodes: &Nodes) -> Result<NameSet, ImportFault>
    ensures { Answers (λ order. order) result (call_order file nodes.now) }
{
    let edges = edges_to(alloc, nodes.entries())?;
    let graph = Graph {
        nodes,
        missing: Rule::UNKNOWN_NAME,
        circle: Rule::RECURSION,
    };
    let here = Open {
        name: "",
        file,
        rest: &edges,
    };
    order_from(alloc, graph, here)
}

/// No function or procedure calls itself, directly or indirectly.
pub(crate) fn without_recursion(alloc: Global, scope: &Scope) -> Result<(), ImportFault>
    ensures { Answers (λ _. scope_view scope.now) result (without_recursion (scope_view scope.now)) }
{
    let nodes = routines(alloc, scope)?;
    call_order(alloc, scope.file, &nodes)?;
    Ok(())
}
