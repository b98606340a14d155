//! Files by their classes.

ghost use Rattle.std.specs.Prelude.{◌≡◌, [], ◌∷◌, ◌++◌, IfOk, OnOk, OnErr, None, is_some, option_map};
ghost use Rattle.cal_ast.specs.View.{file_tree};
ghost use Rattle.cal_imports.specs.Sources.{source_named};
ghost use Rattle.cal_imports.specs.View.{new_source, source, sources};

use crate::entry::Entry;
use cal_ast::File;
use indexmap::IndexMap;
use indexmap::map::Slice;
use rvc_base::Memory;
use std::alloc::Global;
use std::marker::Model;

/// How many files a set has room for when it is made.
const FIRST_ROOM: usize = 4;

/// The files that a compilation reads, each under the class that was asked for.
///
/// It is seen as the files with their classes in the order in which they were added, of which `sources` gives the trees;
/// no class stands there twice. A look-up takes the same time however many they are.
#[derive(Drop)]
pub struct FileSet {
    alloc: Global,
    files: IndexMap<String, Entry>,
}

impl Model for FileSet {
    ghost use Rattle.std.specs.Coded.{codes};
    ghost use Rattle.cal_imports.specs.contracts.entry.Entry as entry;
    ghost use Rattle.cal_imports.specs.View.{Files};

    ghost Value = { Files };

    ghost coded = { Prim.hlevel (codes, entry.the_row.coded) };

    ghost view = { λ set. set.files.entries };
}

impl FileSet {
    /// No files. The table's first block is reserved.
    ///
    /// # Errors
    ///
    /// [`Memory`] if an allocation is refused.
    pub fn new(alloc: Global) -> Result<FileSet, Memory>
        ensures { IfOk result (λ set. sources set ≡ []) }
    {
        let files = IndexMap::with_capacity(alloc, FIRST_ROOM)?;
        Ok(FileSet { alloc, files })
    }

    /// Whether a file of the class is there.
    pub fn has(&self, name: &str) -> bool
        ensures { result ≡ is_some (source_named name.now (sources self.now)) }
    {
        self.find(name).is_some()
    }

    /// The file of a class.
    pub fn get(&self, name: &str) -> Option<&File>
        ensures { option_map (λ tree. file_tree tree.now) result
            ≡ option_map (λ s. s.tree) (source_named name.now (sources self.now)) }
    {
        match self.find(name) {
            Some(entry) => Some(&entry.tree),
            None => None,
        }
    }

    /// Adds a file with its number, under the class that was asked for: names with dots between.
    ///
    /// # Errors
    ///
    /// [`Memory`] if an allocation is refused; the set is as before then (`same`).
    pub fn add(&mut self, name: &str, file: u32, tree: File) -> Result<(), Memory>
        requires { source_named name.now (sources self.old) ≡ None }
        ensures added { OnOk result (sources self.new ≡ sources self.old
            ++ new_source name.now file (file_tree tree) ∷ []) }
        ensures same { OnErr result (self.new ≡ self.old) }
    {
        let name = String::from_str(self.alloc, name)?;
        self.files.insert(name, Entry { file, tree })?;
        Ok(())
    }

    /// The file of a class.
    pub(crate) fn find(&self, name: &str) -> Option<&Entry>
        ensures { option_map (λ e. source name.now e.now) result ≡ source_named name.now (sources self.now) }
    {
        self.files.get(name)
    }

    /// The files with their classes, in the order in which they were added.
    pub(crate) fn entries(&self) -> Slice<'_, String, Entry>
        ensures { result ≡ self.now }
    {
        self.files.as_slice()
    }

    /// The allocator that the set was made with.
    pub(crate) fn alloc(&self) -> Global {
        self.alloc
    }
}
