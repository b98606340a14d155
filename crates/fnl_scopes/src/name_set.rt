//! Names that stand once.

ghost use Rattle.std.specs.Prelude.{◌≡◌, ◌∷◌, ◌++◌, [], OnOk, false};
ghost use Rattle.fnl_bind.specs.Library.{is_among};

use indexmap::IndexSet;
use rvc_base::Memory;
use std::alloc::Global;
use std::marker::Model;

/// Names with an index, so that a look-up takes the same time however many they are.
///
/// It is seen as the list of the names in the order in which they were added.
#[derive(Drop)]
pub(crate) struct NameSet {
    alloc: Global,
    names: IndexSet<String>,
}

impl Model for NameSet {
    ghost use Rattle.std.specs.Prelude.{ℕ, List, map, string_bytes};

    ghost Value = { List (List ℕ) };

    ghost view = { λ set. map string_bytes set.names.keys };
}

impl NameSet {
    /// No names.
    pub fn new(alloc: Global) -> NameSet
        ensures { result ≡ [] }
    {
        NameSet {
            alloc,
            names: IndexSet::new(alloc),
        }
    }

    /// Whether the name is among them.
    pub fn has(&self, name: &str) -> bool
        ensures { result ≡ is_among name.now self.now }
    {
        self.names.contains(name)
    }

    /// Adds a name that isn't among them.
    pub fn add(&mut self, name: &str) -> Result<(), Memory>
        requires { is_among name.now self.old ≡ false }
        ensures { OnOk result (self.new ≡ self.old ++ name.now ∷ []) }
    {
        let name = String::from_str(self.alloc, name)?;
        self.names.insert(name)?;
        Ok(())
    }
}
