//! An actor with what its imports lead to.
#![tactic(auto, using(crate::proofs::Answered::refused_on))]

ghost use Rattle.std.specs.Prelude.{◌≡◌, [], ◌∷◌, IfOk, OnOk, map, string_bytes};
ghost use Rattle.cal_ast.specs.View.{file_body_tree};
ghost use Rattle.cal_imports.specs.Answer.{Answers};
ghost use Rattle.cal_imports.specs.Asked.{imports_tree};
ghost use Rattle.cal_imports.specs.GraphView.{edge_of};
ghost use Rattle.cal_imports.specs.ScopeView.{AnswersGathered, gathered_view, scope_view};
ghost use Rattle.cal_imports.specs.View.{source, sources};
ghost use Rattle.cal_imports.specs.Whole.{actor_gathered, import_edges, import_order, scope_of, source_gathered, units_gathered, with_file_nodes};

use crate::asked_for::as_asked;
use crate::class_text::dotted;
use crate::entry::Entry;
use crate::fault::{ImportFault, refused};
use crate::file_set::FileSet;
use crate::graph::{Edge, Nodes};
use crate::one_file::source;
use crate::scope::{Gathered, Scope};
use crate::walk::{Graph, Open, order_from};
use cal_ast::{Body, Import};
use cal_scope::NameSet;
use indexmap::map::Slice;
use rvc_base::{Memory, Rule};
use std::alloc::Global;

/// The edges of imports.
fn import_edges(alloc: Global, imports: &[Import]) -> Result<Vec<Edge>, Memory>
    ensures { IfOk result (λ edges. map edge_of edges.items ≡ import_edges (imports_tree imports.now)) }
{
    let mut edges = Vec::new(alloc);
    let mut rest = imports;
    'imports: while let Some((first, others)) = rest.split_first() {
        let to = dotted(alloc, &first.path)?;
        edges.push(Edge { to, at: first.at })?;
        rest = others;
    }
    Ok(edges)
}

/// Adds the node of a file.
fn add_node(alloc: Global, nodes: &mut Nodes, name: &str, entry: &Entry) -> Result<(), Memory>
    ensures { OnOk result (nodes.new
        ≡ with_file_nodes (source name.now entry.now ∷ []) nodes.old) }
{
    let edges = import_edges(alloc, &entry.tree.imports)?;
    nodes.add(name, entry.file, edges)
}

/// Adds the nodes of files.
fn add_nodes(alloc: Global, nodes: &mut Nodes, files: Slice<String, Entry>) -> Result<(), Memory>
    ensures { OnOk result (nodes.new ≡ with_file_nodes (sources files.entry) nodes.old) }
{
    let mut rest = files;
    'files: while let Some((first, others)) = rest.split_first() {
        let (name, entry) = first;
        add_node(alloc, nodes, name.as_str(), entry)?;
        rest = others;
    }
    Ok(())
}

/// The classes to which the imports of a file lead, each behind those to which its own imports lead.
fn import_order(
    alloc: Global,
    set: &FileSet,
    name: &str,
    entry: &Entry,
) -> Result<NameSet, ImportFault>
    ensures { Answers (λ order. order) result
        (import_order (sources set.now) (source name.now entry.now)) }
{
    let mut nodes = Nodes::new(alloc);
    add_nodes(alloc, &mut nodes, set.entries())?;
    let edges = import_edges(alloc, &entry.tree.imports)?;
    let graph = Graph {
        nodes: &nodes,
        missing: Rule::IMPORT_NOT_FOUND,
        circle: Rule::IMPORT_CYCLE,
    };
    let here = Open {
        name,
        file: entry.file,
        rest: &edges,
    };
    order_from(alloc, graph, here)
}

/// Adds the declarations of a unit, which is to be what the import asks for.
fn gather_unit(
    alloc: Global,
    set: &FileSet,
    name: &str,
    entry: &Entry,
    found: &mut Gathered,
) -> Result<(), ImportFault>
    ensures { AnswersGathered result
        (source_gathered (sources set.now) (source name.now entry.now)) found.old found.new }
{
    as_asked(alloc, true, name, entry)?;
    match source(alloc, set, name, entry)? {
        Body::Unit(unit) => found.add_members(alloc, name, entry.file, &unit.members)?,
        Body::Actor(actor) => found.add_members(alloc, name, entry.file, &actor.members)?,
    }
    Ok(())
}

/// Adds the declarations of units in order.
fn gather_units(
    alloc: Global,
    set: &FileSet,
    names: &[String],
    found: &mut Gathered,
) -> Result<(), ImportFault>
    ensures { AnswersGathered result
        (units_gathered (sources set.now) (map string_bytes names.now)) found.old found.new }
{
    let mut rest = names;
    'units: while let Some((first, others)) = rest.split_first() {
        if let Some(entry) = set.find(first.as_str()) {
            gather_unit(alloc, set, first.as_str(), entry, found)?;
        }
        rest = others;
    }
    Ok(())
}

/// A scope of these parts, if the file declares an actor.
fn scope_of(
    alloc: Global,
    name: &str,
    file: u32,
    gathered: Gathered,
    body: Body,
) -> Result<Scope, ImportFault>
    ensures { Answers scope_view result
        (scope_of name.now file (gathered_view gathered) (file_body_tree body)) }
{
    let class = String::from_str(alloc, name)?;
    match body {
        Body::Actor(actor) => Ok(Scope {
            class,
            file,
            actor,
            vars: gathered.vars,
            funs: gathered.funs,
        }),
        Body::Unit(_) => Err(refused(Rule::NOT_AS_ASKED, file, 0)),
    }
}

/// An actor with what its imports lead to.
pub(crate) fn gather_actor(
    alloc: Global,
    set: &FileSet,
    name: &str,
    entry: &Entry,
) -> Result<Scope, ImportFault>
    ensures { Answers scope_view result (actor_gathered (sources set.now) (source name.now entry.now)) }
{
    as_asked(alloc, false, name, entry)?;
    let order = import_order(alloc, set, name, entry)?;
    let mut gathered = Gathered::none(alloc);
    gather_units(alloc, set, order.names(), &mut gathered)?;
    let body = source(alloc, set, name, entry)?;
    scope_of(alloc, name, entry.file, gathered, body)
}
