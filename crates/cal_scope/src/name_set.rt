//! The names that one scope declares.

ghost use Rattle.std.specs.Prelude.{◌≡◌, [], OnErr, OnOk, map, string_bytes};
ghost use Rattle.cal_scope.specs.Names.{is_among, with_name};

use indexmap::IndexSet;
use rvc_base::Memory;
use std::alloc::Global;
use std::marker::Model;

/// The names that one scope declares, with an index, so that a look-up takes the same time however many they are.
///
/// It is seen as the list of the names in the order in which they were added, each once.
#[derive(Drop)]
pub struct NameSet {
    alloc: Global,
    names: IndexSet<String>,
}

impl Model for NameSet {
    ghost use Rattle.std.specs.Prelude.{ℕ, List, map, string_bytes};

    ghost Value = { List (List ℕ) };

    ghost view = { λ set. map string_bytes set.names.keys };
}

impl NameSet {
    /// No names.
    pub fn new(alloc: Global) -> NameSet
        ensures { result ≡ [] }
    {
        NameSet {
            alloc,
            names: IndexSet::new(alloc),
        }
    }

    /// Whether the name is among them: whether one more declaration of it would be the second in its scope.
    pub fn has(&self, name: &str) -> bool
        ensures { result ≡ is_among name.now self.now }
    {
        self.names.contains(name)
    }

    /// Adds a name, unless it is among them.
    ///
    /// # Errors
    ///
    /// `Memory` if memory runs out; the names are as before then (`same`).
    pub fn add(&mut self, name: &str) -> Result<(), Memory>
        ensures added { OnOk result (self.new ≡ with_name name.now self.old) }
        ensures same { OnErr result (self.new ≡ self.old) }
    {
        let name = String::from_str(self.alloc, name)?;
        self.names.insert(name)?;
        Ok(())
    }

    /// The names in the order in which they were added.
    pub fn names(&self) -> &[String]
        ensures { map string_bytes result.now ≡ self.now }
    {
        self.names.as_slice()
    }
}
