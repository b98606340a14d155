//! The places of names in a list.

ghost use Rattle.std.specs.Prelude.{◌≡◌, ◌<◌, [], OnErr, OnOk, length, vec_capacity, vec_len};
ghost use Rattle.const_env.specs.Standing.{place_named, with_place};

use indexmap::IndexMap;
use rvc_base::Memory;
use std::alloc::Global;
use std::marker::Model;

/// Where names stand in a list, with an index, so that a look-up takes the same time however many they are.
///
/// It is seen as the names with their places.
#[derive(Drop)]
pub(crate) struct Places {
    places: IndexMap<String, usize>,
}

impl Model for Places {
    ghost use Rattle.std.specs.Prelude.{List, map};
    ghost use Rattle.const_env.specs.Standing.{Placed, placed_of};

    ghost Value = { List Placed };

    ghost view = { λ places. map placed_of places.places.entries };
}

impl Places {
    /// No names.
    pub fn new(alloc: Global) -> Places
        ensures { result ≡ [] }
    {
        Places {
            places: IndexMap::new(alloc),
        }
    }

    /// The place of the name.
    pub fn get(&self, name: &str) -> Option<usize>
        ensures { result ≡ place_named name.now self.now }
    {
        self.places.get(name).copied()
    }

    /// Makes room for one item more, and lets the name stand where it will.
    ///
    /// # Errors
    ///
    /// `Memory` if memory runs out; the places are as before then (`memory`).
    pub fn put_next<T>(&mut self, name: &str, items: &mut Vec<T>) -> Result<(), Memory>
        ensures same { items.new.items ≡ items.old.items }
        ensures room { OnOk result (vec_len items.new < vec_capacity items.new) }
        ensures put { OnOk result (self.new
            ≡ with_place name.now (length items.old.items) self.old) }
        ensures memory { OnErr result (self.new ≡ self.old) }
    {
        items.reserve(1)?;
        let name = String::from_str(*items.allocator(), name)?;
        self.places.insert(name, items.len())?;
        Ok(())
    }
}
