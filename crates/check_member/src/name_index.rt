//! Names with their numbers.

ghost use Rattle.std.specs.Prelude.{◌≡◌, [], IfOk, OnOk, length, map, not, string_bytes, true};
ghost use Rattle.cal_model.specs.Tags.{is_seen, number_of_name, with_seen};

use indexmap::IndexSet;
use rvc_base::Memory;
use std::alloc::Global;
use std::marker::Model;

/// Names in order of first appearance, with an index, so that a look-up takes the same time however many they are.
///
/// It is seen as the list of the names, each once.
#[derive(Drop)]
pub(crate) struct NameIndex {
    alloc: Global,
    names: IndexSet<String>,
}

impl Model for NameIndex {
    ghost use Rattle.std.specs.Prelude.{ℕ, List, map, string_bytes};

    ghost Value = { List (List ℕ) };

    ghost view = { λ index. map string_bytes index.names.keys };
}

impl NameIndex {
    /// No names.
    pub fn new(alloc: Global) -> NameIndex
        ensures { result ≡ [] }
    {
        NameIndex {
            alloc,
            names: IndexSet::new(alloc),
        }
    }

    /// Adds a name, unless it is there. Whether it wasn't.
    ///
    /// # Errors
    ///
    /// `Memory` if memory runs out.
    pub fn add(&mut self, name: &str) -> Result<bool, Memory>
        ensures is_new { IfOk result (λ is_new. is_new ≡ not (is_seen name.now self.old)) }
        ensures added { OnOk result (self.new ≡ with_seen self.old name.now) }
    {
        let name = String::from_str(self.alloc, name)?;
        let (_number, is_new) = self.names.insert_full(name)?;
        Ok(is_new)
    }

    /// The number of a name that is there: how many stand before it.
    pub fn number(&self, name: &str) -> usize
        requires { is_seen name.now self.now ≡ true }
        ensures { result ≡ number_of_name name.now self.now }
    {
        self.names.get_index_of(name).unwrap()
    }

    /// How many names there are.
    pub fn count(&self) -> usize
        ensures { result ≡ length self.now }
    {
        self.names.len()
    }

    /// The names in their order.
    pub fn names(&self) -> &[String]
        ensures { map string_bytes result.now ≡ self.now }
    {
        self.names.as_slice()
    }
}
