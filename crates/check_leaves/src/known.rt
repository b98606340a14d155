//! The actors that were found so far.

ghost use Rattle.std.specs.Prelude.{◌≡◌, ◌<◌, [], OnOk, length};
ghost use Rattle.cal_imports.specs.View.{sources};
ghost use Rattle.cal_model.specs.View.{actor_of};
ghost use Rattle.fnl_tree.specs.View.{leaf_of};
ghost use Rattle.net_model.specs.Limits.{max_instances};
ghost use Rattle.check_leaves.specs.Finding.{IsFound};
ghost use Rattle.check_leaves.specs.Steps.{AddsLeaf, IsIndexed, Keeps, NamesStandApart, Repeats, firsts_of};

use crate::find::find;
use crate::first::First;
use crate::newest::Newest;
use crate::one::actor_at;
use cal_imports::FileSet;
use cal_model::Bound;
use fnl_tree::Leaf;
use rvc_base::{Front, Memory};
use std::alloc::Global;

/// The actors at the leaves so far, with the first leaf of each.
#[derive(Drop)]
pub(crate) struct Known<'a> {
    pub firsts: Vec<First<'a>>,
    pub newest: Newest,
    pub actors: Vec<Bound>,
    pub of_leaf: Vec<u32>,
}

impl<'a> Known<'a> {
    /// No actors.
    pub(crate) fn new(alloc: Global) -> Known<'a>
        ensures firsts { result.firsts.items ≡ [] }
        ensures newest { result.newest ≡ [] }
        ensures actors { result.actors.items ≡ [] }
        ensures places { result.of_leaf.items ≡ [] }
    {
        Known {
            firsts: Vec::new(alloc),
            newest: Newest::new(alloc),
            actors: Vec::new(alloc),
            of_leaf: Vec::new(alloc),
        }
    }

    /// Adds a leaf, with its actor if none was found that it is.
    pub(crate) fn add(
        &mut self,
        alloc: Global,
        files: &FileSet,
        leaf: &'a Leaf,
    ) -> Result<(), Front>
        requires differ { NamesStandApart (sources files.now) }
        requires indexed { IsIndexed self.old }
        requires few { length self.old.firsts.items < max_instances }
        ensures { AddsLeaf result (sources files.now) (leaf_of leaf.entry.now) self.old self.new }
    {
        match find(leaf, &self.firsts, &self.newest) {
            Some(place) => self.repeat(place),
            None => self.add_new(alloc, files, leaf),
        }
    }

    /// Adds a leaf that is like the first one of an actor.
    fn repeat(&mut self, place: u32) -> Result<(), Front>
        ensures { Repeats result place self.old self.new }
    {
        match self.of_leaf.push(place) {
            Ok(()) => Ok(()),
            Err(_) => Err(Front::Memory),
        }
    }

    /// Adds a leaf that is like none before it.
    fn add_new(&mut self, alloc: Global, files: &FileSet, leaf: &'a Leaf) -> Result<(), Front>
        requires differ { NamesStandApart (sources files.now) }
        requires indexed { IsIndexed self.old }
        requires few { length self.old.firsts.items < max_instances }
        requires unlike { IsFound None (firsts_of self.old) (leaf_of leaf.now) }
        ensures { AddsLeaf result (sources files.now) (leaf_of leaf.entry.now) self.old self.new }
    {
        let actor = actor_at(alloc, files, leaf)?;
        match self.keep(leaf, actor) {
            Ok(()) => Ok(()),
            Err(Memory) => Err(Front::Memory),
        }
    }

    /// Adds a leaf with its actor.
    fn keep(&mut self, leaf: &'a Leaf, actor: Bound) -> Result<(), Memory>
        requires { length self.old.firsts.items < max_instances }
        ensures { OnOk result (Keeps (leaf_of leaf.entry.now) (actor_of actor) self.old self.new) }
    {
        let place = self.firsts.len() as u32;
        let earlier = self.newest.get(leaf.class.as_str());
        self.actors.push(actor)?;
        self.firsts.push(First { leaf, earlier })?;
        self.newest.put(leaf.class.as_str(), place)?;
        self.of_leaf.push(place)?;
        Ok(())
    }
}
