//! The instances of a network by their names.

ghost use Rattle.std.specs.Prelude.{◌≡◌, List, ◌∷◌, ◌++◌, IfOk, OnOk, map, option_map};
ghost use Rattle.fnl_tree.specs.Tree.{Part as PartSpec};
ghost use Rattle.fnl_tree.specs.View.{inner_of, part_of};
ghost use Rattle.fnl_flatten.specs.Joints.{part_named};
ghost use Rattle.fnl_flatten.specs.Named.{NameAlike};

use fnl_tree::{Inner, Part};
use indexmap::IndexMap;
use rvc_base::Memory;
use std::alloc::Global;
use std::marker::Model;

/// The instances of a network with an index, so that a look-up takes the same time however many they are.
///
/// It is seen as instances of which no two have one name.
#[derive(Drop)]
pub(crate) struct PartNames {
    alloc: Global,
    inners: IndexMap<String, Inner>,
}

impl Model for PartNames {
    ghost use Rattle.std.specs.Prelude.{List, map};
    ghost use Rattle.fnl_tree.specs.Tree.{Part as PartSpec};
    ghost use Rattle.fnl_flatten.specs.Named.{part_entry};

    ghost Value = { List PartSpec };

    ghost view = { λ names. map part_entry names.inners.entries };
}

impl PartNames {
    /// The instances of a network, each by its name.
    pub fn new(alloc: Global, parts: &[Part]) -> Result<PartNames, Memory>
        ensures { IfOk result (λ names. NameAlike names (map part_of parts.now)) }
    {
        let mut names = PartNames {
            alloc,
            inners: IndexMap::new(alloc),
        };
        let mut rest = parts;
        'parts: while let Some((first, others)) = rest.split_first() {
            names.add(first)?;
            rest = others;
        }
        Ok(names)
    }

    /// What the instance of this name is.
    pub fn get(&self, name: &str) -> Option<Inner>
        ensures { option_map inner_of result ≡ part_named name.now self.now }
    {
        self.inners.get(name).copied()
    }

    /// Adds an instance, unless its name is there.
    fn add(&mut self, part: &Part) -> Result<(), Memory>
        ensures { OnOk result ((parts : List PartSpec)
            → NameAlike (self.new ++ parts) (self.old ++ part_of part.now ∷ parts)) }
    {
        if self.get(part.id.as_str()).is_some() {
            return Ok(());
        }
        let id = String::from_str(self.alloc, part.id.as_str())?;
        self.inners.insert(id, part.inner)?;
        Ok(())
    }
}
