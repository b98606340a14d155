//! A network that was checked.

ghost use Rattle.std.specs.Prelude.{◌≡◌, length};

use check_leaves::LeafActors;
use fnl_flatten::Flat;

/// A network that was checked, before anything is compiled.
#[derive(Drop)]
pub struct Checked {
    /// Its actors by their paths and classes, its links and its own ports.
    pub flat: Flat,
    /// What its actors are.
    pub actors: LeafActors,
}

impl Checked {
    /// Its actors by their paths and classes, its links and its own ports.
    pub fn wiring(&self) -> &Flat
        ensures { result.now ≡ self.now.flat }
    {
        &self.flat
    }

    /// How many actors it has.
    pub fn instances(&self) -> usize
        ensures { result ≡ length self.now.flat.paths.items }
    {
        self.flat.paths.len()
    }

    /// How many links it has.
    pub fn links(&self) -> usize
        ensures { result ≡ length self.now.flat.links.items }
    {
        self.flat.links.len()
    }
}
