//! The names of a file: what it declares, and what it imports.

ghost use Rattle.std.specs.Prelude.{◌≡◌, [], ◌∷◌, ◌++◌, OnOk, OnErr, None, is_some, map, option_map};
ghost use Rattle.cal_scope.specs.Names.{global_named};
ghost use Rattle.cal_scope.specs.Meanings.{global_of, meaning_of};

use crate::role::Role;
use indexmap::IndexMap;
use indexmap::map::Slice;
use rvc_base::Memory;
use std::alloc::Global;
use std::marker::Model;

/// What a name of a file stands for.
#[derive(Drop)]
pub struct Meaning {
    pub role: Role,
    /// The text that stands for it wherever it is used.
    pub full: String,
}

/// The names of a file: what it declares, and what it imports, by their names.
///
/// It is seen as the list of the names with what they stand for, in the order in which they were added; no name stands
/// there twice. A look-up takes the same time however many they are.
#[derive(Drop)]
pub struct FileNames {
    alloc: Global,
    named: IndexMap<String, Meaning>,
}

impl Model for FileNames {
    ghost use Rattle.std.specs.Prelude.{List, map};
    ghost use Rattle.cal_scope.specs.Names.{Global};
    ghost use Rattle.cal_scope.specs.Meanings.{global_of};

    ghost Value = { List Global };

    ghost view = { λ names. map global_of names.named.entries };
}

impl FileNames {
    /// No names.
    pub fn new(alloc: Global) -> FileNames
        ensures { result ≡ [] }
    {
        FileNames {
            alloc,
            named: IndexMap::new(alloc),
        }
    }

    /// The allocator that the names were made with.
    pub(crate) fn alloc(&self) -> Global {
        self.alloc
    }

    /// Whether the name is there.
    pub fn has(&self, name: &str) -> bool
        ensures { result ≡ is_some (global_named name.now self.now) }
    {
        self.meaning(name).is_some()
    }

    /// Adds a name with what it stands for, and the text that stands for it wherever it is used.
    ///
    /// # Errors
    ///
    /// `Memory` if memory runs out; the names are as before then (`same`).
    pub fn add(&mut self, name: &str, role: Role, full: &str) -> Result<(), Memory>
        requires { global_named name.now self.old ≡ None }
        ensures added { OnOk result (self.new
            ≡ self.old ++ record { name = name.now; role = role; full = full.now } ∷ []) }
        ensures same { OnErr result (self.new ≡ self.old) }
    {
        let full = String::from_str(self.alloc, full)?;
        let name = String::from_str(self.alloc, name)?;
        self.named.insert(name, Meaning { role, full })?;
        Ok(())
    }

    /// What a name stands for, if it is there.
    pub fn meaning(&self, name: &str) -> Option<&Meaning>
        ensures { option_map (λ m. meaning_of name.now m.now) result
            ≡ global_named name.now self.now }
    {
        self.named.get(name)
    }
    /// The names with what they stand for, in the order in which they were added.
    pub fn entries(&self) -> Slice<'_, String, Meaning>
        ensures { map global_of result ≡ self.now }
    {
        self.named.as_slice()
    }
}
