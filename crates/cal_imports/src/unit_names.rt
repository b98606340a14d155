//! The names that units declare, kept so that they are made once for each unit.

ghost use Rattle.std.specs.Prelude.{◌≡◌, [], ◌∷◌, ◌++◌, OnOk, None, is_some, option_map};
ghost use Rattle.cal_imports.specs.UnitNames.{unit_named, unit_with};

use cal_scope::FileNames;
use indexmap::IndexMap;
use rvc_base::Memory;
use std::alloc::Global;
use std::marker::Model;

/// The names that units declare, by the classes of the units.
///
/// They are seen as the list of the units in the order in which they were added; no class stands there twice.
#[derive(Drop)]
pub(crate) struct UnitNames {
    alloc: Global,
    units: IndexMap<String, FileNames>,
}

impl Model for UnitNames {
    ghost use Rattle.std.specs.Prelude.{List, map};
    ghost use Rattle.cal_imports.specs.UnitNames.{Unit, unit_of};

    ghost Value = { List Unit };

    ghost view = { λ names. map unit_of names.units.entries };
}

impl UnitNames {
    /// Of no unit.
    pub(crate) fn new(alloc: Global) -> UnitNames
        ensures { result ≡ [] }
    {
        UnitNames {
            alloc,
            units: IndexMap::new(alloc),
        }
    }

    /// Whether the names of the unit of a class are kept.
    pub(crate) fn has(&self, class: &str) -> bool
        ensures { result ≡ is_some (unit_named class.now self.now) }
    {
        self.get(class).is_some()
    }

    /// The names of the unit of a class, if they are kept.
    pub(crate) fn get(&self, class: &str) -> Option<&FileNames>
        ensures { option_map (λ names. names.now) result ≡ unit_named class.now self.now }
    {
        self.units.get(class)
    }

    /// Keeps the names of the unit of a class.
    pub(crate) fn add(&mut self, class: &str, names: FileNames) -> Result<(), Memory>
        requires { unit_named class.now self.old ≡ None }
        ensures { OnOk result (self.new ≡ self.old ++ unit_with class.now names ∷ []) }
    {
        let class = String::from_str(self.alloc, class)?;
        self.units.insert(class, names)?;
        Ok(())
    }
}
