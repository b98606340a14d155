//! Nodes and edges, by the names of the nodes.

ghost use Rattle.std.specs.Prelude.{◌≡◌, [], OnOk, is_some, map, option_map};
ghost use Rattle.cal_imports.specs.GraphView.{node, node_of, node_with};
ghost use Rattle.cal_imports.specs.Walk.{node_named, with_node};

use indexmap::IndexMap;
use indexmap::map::Slice;
use rvc_base::Memory;
use std::alloc::Global;
use std::marker::Model;

/// An edge to the node of a name, and the place at which it stands in the node's file.
#[derive(Drop)]
pub(crate) struct Edge {
    pub to: String,
    pub at: u32,
}

/// A node's file and edges.
#[derive(Drop)]
pub(crate) struct Node {
    pub file: u32,
    pub edges: Vec<Edge>,
}

/// Nodes by their names.
///
/// They are seen as the list of the nodes in the order in which they were added; no name stands there twice.
#[derive(Drop)]
pub(crate) struct Nodes {
    alloc: Global,
    named: IndexMap<String, Node>,
}

impl Model for Nodes {
    ghost use Rattle.std.specs.Prelude.{List, map};
    ghost use Rattle.cal_imports.specs.GraphView.{node_of};
    ghost use Rattle.cal_imports.specs.Walk.{Node};

    ghost Value = { List Node };

    ghost view = { λ nodes. map node_of nodes.named.entries };
}

impl Nodes {
    /// No nodes.
    pub(crate) fn new(alloc: Global) -> Nodes
        ensures { result ≡ [] }
    {
        Nodes {
            alloc,
            named: IndexMap::new(alloc),
        }
    }

    /// The node of a name.
    pub(crate) fn find(&self, name: &str) -> Option<&Node>
        ensures { option_map (λ n. node name.now n.now) result ≡ node_named name.now self.now }
    {
        self.named.get(name)
    }

    /// Adds a node, unless one of its name is there.
    pub(crate) fn add(&mut self, name: &str, file: u32, edges: Vec<Edge>) -> Result<(), Memory>
        ensures { OnOk result (self.new ≡ with_node (node_with name.now file edges.items) self.old) }
    {
        if self.find(name).is_some() {
            return Ok(());
        }
        let name = String::from_str(self.alloc, name)?;
        self.named.insert(name, Node { file, edges })?;
        Ok(())
    }

    /// The nodes with their names, in the order in which they were added.
    pub(crate) fn entries(&self) -> Slice<'_, String, Node>
        ensures { map node_of result ≡ self.now }
    {
        self.named.as_slice()
    }
}
