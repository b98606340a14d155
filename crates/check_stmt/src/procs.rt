//! The procedures that statements may call.

ghost use Rattle.std.specs.Prelude.{◌≡◌, ◌++◌, ◌∷◌, [], OnErr, OnOk, map, option_map};
ghost use Rattle.cal_model.specs.Statement.{proc_named};
ghost use Rattle.cal_model.specs.View.{proc_view};
ghost use Rattle.const_env.specs.Standing.{place_named, placed_of};
ghost use Rattle.check_stmt.specs.Firsts.{with_first};

use cal_model::BoundProc;
use indexmap::IndexMap;
use rvc_base::Memory;
use std::alloc::Global;
use std::marker::Model;

/// Procedures in the order in which they were added. A look-up by name takes the same time however many they are.
///
/// Contracts see their list.
#[derive(Drop)]
pub struct Procs {
    procs: Vec<BoundProc>,
    /// Where the first procedure of each name stands.
    places: IndexMap<String, usize>,
}

impl Model for Procs {
    ghost use Rattle.std.specs.Prelude.{List, map};
    ghost use Rattle.std.specs.Coded.{codes};
    ghost use Rattle.cal_model.specs.Statement.{proc_named};
    ghost use Rattle.cal_model.specs.View.{proc_view};
    ghost use Rattle.cal_model.specs.contracts.bound.BoundProc as proc;
    ghost use Rattle.cal_model.specs.declared.bound.BoundProc.{BoundProc};
    ghost use Rattle.const_env.specs.Standing.{LeadEach, placed_of};

    ghost Value = { List BoundProc };

    ghost coded = { Prim.hlevel (codes, proc.the_row.coded) };

    ghost view = { λ procs. procs.procs.items };

    ghost invariant = { λ procs. LeadEach proc_view procs.procs.items (map placed_of procs.places.entries)
        (λ name. proc_named name (map proc_view procs.procs.items)) };
}

impl Procs {
    /// No procedures.
    pub fn new(alloc: Global) -> Procs
        ensures { result ≡ [] }
    {
        Procs {
            procs: Vec::new(alloc),
            places: IndexMap::new(alloc),
        }
    }

    /// Adds a procedure behind the others.
    ///
    /// # Errors
    ///
    /// `Memory` if memory runs out; the procedures are as before then (`memory`).
    pub fn add(&mut self, proc: BoundProc) -> Result<(), Memory>
        ensures added { OnOk result (self.new ≡ self.old ++ proc ∷ []) }
        ensures memory { OnErr result (self.new ≡ self.old) }
    {
        self.procs.reserve(1)?;
        place_first(
            &mut self.places,
            proc.name.as_str(),
            self.procs.len(),
            *self.procs.allocator(),
        )?;
        self.procs.push(proc)?;
        Ok(())
    }

    /// The first procedure of the name.
    pub fn get(&self, name: &str) -> Option<&BoundProc>
        ensures { option_map (λ p. proc_view p.now) result ≡ proc_named name.now (map proc_view self.now) }
    {
        let place = place_in(&self.places, name)?;
        self.procs.get(place)
    }

    /// The procedures in their order.
    pub fn into_list(self) -> Vec<BoundProc>
        ensures { result.items ≡ self }
    {
        self.procs
    }
}

/// The place at which a name stands.
fn place_in(places: &IndexMap<String, usize>, name: &str) -> Option<usize>
    ensures { result ≡ place_named name.now (map placed_of places.now.entries) }
{
    places.get(name).copied()
}

/// Lets a name stand at a place, unless it stands at one already.
fn place_first(
    places: &mut IndexMap<String, usize>,
    name: &str,
    place: usize,
    alloc: Global,
) -> Result<(), Memory>
    ensures placed { OnOk result (map placed_of places.new.entries
        ≡ with_first name.now place (map placed_of places.old.entries)) }
    ensures memory { OnErr result (places.new.entries ≡ places.old.entries) }
{
    if place_in(places, name).is_some() {
        return Ok(());
    }
    let own = String::from_str(alloc, name)?;
    places.insert(own, place)?;
    Ok(())
}
