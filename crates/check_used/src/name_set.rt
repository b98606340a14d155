//! Sets of names.

ghost use Rattle.std.specs.Prelude.{◌≡◌, [], None, OnOk, Some, if◌then◌else◌, map, string_bytes};
ghost use Rattle.cal_model.specs.Tags.{is_seen, number_of_name, with_seen};

use indexmap::IndexSet;
use rvc_base::Memory;
use std::alloc::Global;
use std::marker::Model;

/// Names, so that a look-up takes the same time however many they are.
///
/// It is seen as the list of the names in order of first appearance, each once.
#[derive(Drop)]
pub struct NameSet {
    alloc: Global,
    names: IndexSet<String>,
}

impl Model for NameSet {
    ghost use Rattle.std.specs.Prelude.{ℕ, List, map, string_bytes};

    ghost Value = { List (List ℕ) };

    ghost view = { λ set. map string_bytes set.names.keys };
}

impl NameSet {
    /// No names.
    pub fn new(alloc: Global) -> NameSet
        ensures { result ≡ [] }
    {
        NameSet {
            alloc,
            names: IndexSet::new(alloc),
        }
    }

    /// Adds a name, unless it is there.
    ///
    /// # Errors
    ///
    /// `Memory` if memory runs out.
    pub fn add(&mut self, name: &str) -> Result<(), Memory>
        ensures { OnOk result (self.new ≡ with_seen self.old name.now) }
    {
        let name = String::from_str(self.alloc, name)?;
        let (_number, _is_new) = self.names.insert_full(name)?;
        Ok(())
    }

    /// The names.
    pub fn as_slice(&self) -> &[String]
        ensures { map string_bytes result.now ≡ self.now }
    {
        self.names.as_slice()
    }

    /// Whether a name is there.
    pub fn contains(&self, name: &str) -> bool
        ensures { result ≡ is_seen name.now self.now }
    {
        self.names.contains(name)
    }
    /// The number of a name: how many stand before it, or `None` if it isn't there.
    pub fn number(&self, name: &str) -> Option<usize>
        ensures { result ≡ (if is_seen name.now self.now
            then Some (number_of_name name.now self.now) else None) }
    {
        self.names.get_index_of(name)
    }
}
