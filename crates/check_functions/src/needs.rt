//! What functions need where they stand.

ghost use Rattle.std.specs.Prelude.{◌≡◌, OnOk};
ghost use Rattle.check_functions.specs.Needs.{nothing, with_call, with_name};
ghost use Rattle.check_functions.specs.Said.{Says};

use crate::said::Said;
use check_used::NameSet;
use rvc_base::Memory;
use std::alloc::Global;
use std::marker::Model;

/// The names that are said in what must be constant in functions, and the functions that are called there. What must be
/// constant are the sizes of types and the bounds of generators.
#[derive(Drop)]
pub(crate) struct Needs {
    names: NameSet,
    calls: NameSet,
}

impl Model for Needs {
    ghost use Rattle.check_functions.specs.Needs.{Needed};

    ghost Value = { Needed };

    ghost view = { λ needs. record { names = needs.names; calls = needs.calls } };
}

impl Needs {
    /// Nothing is needed.
    pub fn new(alloc: Global) -> Needs
        ensures { result ≡ nothing }
    {
        Needs {
            names: NameSet::new(alloc),
            calls: NameSet::new(alloc),
        }
    }

    /// The functions that are called.
    pub fn calls(&self) -> &NameSet
        ensures { result.now ≡ self.now.calls }
    {
        &self.calls
    }

    /// A name is said, in what must be constant or elsewhere.
    pub fn add_name(&mut self, constant: bool, name: &str) -> Result<(), Memory>
        ensures { OnOk result (self.new ≡ with_name constant name.now self.old) }
    {
        if constant {
            return self.names.add(name);
        }
        Ok(())
    }

    /// A function is called, in what must be constant or elsewhere.
    pub fn add_call(&mut self, constant: bool, name: &str) -> Result<(), Memory>
        ensures { OnOk result (self.new ≡ with_call constant name.now self.old) }
    {
        if constant {
            return self.calls.add(name);
        }
        Ok(())
    }

    /// Says each name of a function that stands at a place.
    pub fn say(&self, said: &mut Said, place: usize) -> Result<(), Memory>
        ensures { OnOk result (Says self.now.names place said.old said.new) }
    {
        let mut rest = self.names.as_slice();
        'names: while let Some((first, others)) = rest.split_first() {
            said.add(first.as_str(), place)?;
            rest = others;
        }
        Ok(())
    }
}
