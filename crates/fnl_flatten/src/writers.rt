//! Which joint writes to which.

ghost use Rattle.std.specs.Prelude.{◌≡◌, [], ◌∷◌, ◌++◌, None, OnOk};
ghost use Rattle.fnl_flatten.specs.Arrows.{writer_of};

use crate::joint::Joint;
use indexmap::IndexMap;
use rvc_base::Memory;
use std::alloc::Global;
use std::marker::Model;

/// What writes to a joint.
#[derive(Clone, Copy, Debug, PartialEq, Eq)]
pub(crate) struct Writer {
    pub joint: Joint,
    /// The size in tokens that the connections on the way ask for, or 0.
    pub size: u32,
}

/// The connections by the joints to which they lead, in the order in which they were added.
#[derive(Drop)]
pub(crate) struct Writers {
    writers: IndexMap<Joint, Writer>,
}

impl Model for Writers {
    ghost use Rattle.std.specs.Prelude.{List};
    ghost use Rattle.fnl_flatten.specs.Arrows.{Entry};

    ghost Value = { List Entry };

    ghost view = { λ writers. writers.writers.entries };
}

impl Writers {
    /// No connections.
    pub fn new(alloc: Global) -> Writers
        ensures { result ≡ [] }
    {
        Writers {
            writers: IndexMap::new(alloc),
        }
    }

    /// What writes to a joint.
    pub fn get(&self, to: Joint) -> Option<Writer>
        ensures { result ≡ writer_of to self.now }
    {
        self.writers.get(&to).copied()
    }

    /// Adds what writes to a joint.
    pub fn add(&mut self, to: Joint, writer: Writer) -> Result<(), Memory>
        requires { writer_of to self.old ≡ None }
        ensures { OnOk result (self.new ≡ self.old ++ (to, writer) ∷ []) }
    {
        self.writers.insert(to, writer)?;
        Ok(())
    }
}
