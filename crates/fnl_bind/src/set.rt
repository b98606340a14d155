//! Networks by their classes.

ghost use Rattle.std.specs.Prelude.{◌≡◌, [], ◌∷◌, ◌++◌, IfOk, OnErr, OnOk, None, is_some, length, option_map};
ghost use Rattle.fnl_bind.specs.Library.{network_of};
ghost use Rattle.fnl_frames.specs.Views.{net_of};
ghost use Rattle.fnl_bind.specs.View.{entry_under, networks, new_entry};

use crate::entry::NetEntry;
use fnl_read::NetFile;
use indexmap::IndexMap;
use rvc_base::Memory;
use std::alloc::Global;
use std::marker::Model;

/// How many networks a set has room for when it is made.
const FIRST_ROOM: usize = 4;

/// The networks of a compilation, each under its class.
///
/// It is seen as the networks with their classes in the order in which they were added, of which `networks` gives what
/// is written in them; no class stands there twice. A look-up takes the same time however many they are.
#[derive(Drop)]
pub struct NetSet {
    alloc: Global,
    nets: IndexMap<String, NetEntry>,
}

impl Model for NetSet {
    ghost use Rattle.std.specs.Coded.{codes};
    ghost use Rattle.fnl_bind.specs.contracts.entry.NetEntry as entry;
    ghost use Rattle.fnl_bind.specs.View.{Nets};

    ghost Value = { Nets };

    ghost coded = { Prim.hlevel (codes, entry.the_row.coded) };

    ghost view = { λ set. set.nets.entries };
}

impl NetSet {
    /// No networks. The table's first block is reserved.
    ///
    /// # Errors
    ///
    /// [`Memory`] if an allocation is refused.
    pub fn new(alloc: Global) -> Result<NetSet, Memory>
        ensures { IfOk result (λ set. networks set ≡ []) }
    {
        let nets = IndexMap::with_capacity(alloc, FIRST_ROOM)?;
        Ok(NetSet { alloc, nets })
    }

    /// How many networks there are.
    pub fn len(&self) -> usize
        ensures { result ≡ length (networks self.now) }
    {
        self.nets.len()
    }

    /// Whether there is a network of the class.
    pub fn has(&self, class: &str) -> bool
        ensures { result ≡ is_some (network_of class.now (networks self.now)) }
    {
        self.get(class).is_some()
    }

    /// Adds a network with the number of its file, under its class: names with dots between.
    ///
    /// [`NetSet::has`] tests the condition.
    ///
    /// # Errors
    ///
    /// [`Memory`] if an allocation is refused; the set is as before then (`same`).
    pub fn add(&mut self, class: &str, file: u32, net: NetFile) -> Result<(), Memory>
        requires { network_of class.now (networks self.old) ≡ None }
        ensures added { OnOk result (networks self.new ≡ networks self.old
            ++ new_entry class.now file (net_of net) ∷ []) }
        ensures same { OnErr result (self.new ≡ self.old) }
    {
        let class = String::from_str(self.alloc, class)?;
        self.nets.insert(class, NetEntry { file, net })?;
        Ok(())
    }

    /// The network of a class.
    pub fn get(&self, class: &str) -> Option<&NetEntry>
        ensures { option_map (λ e. entry_under class.now e.now) result
            ≡ network_of class.now (networks self.now) }
    {
        self.nets.get(class)
    }
}
