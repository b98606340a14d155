//! The newest actor of each class.

ghost use Rattle.std.specs.Prelude.{◌≡◌, [], OnOk};
ghost use Rattle.check_leaves.specs.Finding.{number_of, with_number};

use indexmap::IndexMap;
use rvc_base::Memory;
use std::alloc::Global;
use std::marker::Model;

/// The place of the newest actor of each class. A look-up takes the same time however many classes there are.
///
/// It is seen as the classes with their numbers.
#[derive(Drop)]
pub(crate) struct Newest {
    alloc: Global,
    numbers: IndexMap<String, u32>,
}

impl Model for Newest {
    ghost use Rattle.std.specs.Prelude.{List, map};
    ghost use Rattle.check_leaves.specs.Finding.{Numbered, numbered_of};

    ghost Value = { List Numbered };

    ghost view = { λ newest. map numbered_of newest.numbers.entries };
}

impl Newest {
    /// No classes.
    pub(crate) fn new(alloc: Global) -> Newest
        ensures { result ≡ [] }
    {
        Newest {
            alloc,
            numbers: IndexMap::new(alloc),
        }
    }

    /// The newest actor of a class.
    pub(crate) fn get(&self, class: &str) -> Option<u32>
        ensures { result ≡ number_of class.now self.now }
    {
        self.numbers.get(class).copied()
    }

    /// This actor is the newest of a class now.
    pub(crate) fn put(&mut self, class: &str, number: u32) -> Result<(), Memory>
        ensures { OnOk result (self.new ≡ with_number class.now number self.old) }
    {
        let class = String::from_str(self.alloc, class)?;
        self.numbers.insert(class, number)?;
        Ok(())
    }
}
