//! Values by the names of the parameters that they are given to.

ghost use Rattle.std.specs.Prelude.{◌≡◌, ◌||◌, [], IfErr, IfOk, List, None, OnOk, not, option_map, slice_get, string_bytes};
ghost use Rattle.cal_check.specs.Actors.{given_wrongly};
ghost use Rattle.cal_check.specs.Variables.{VarDecl, given_to};
ghost use Rattle.cal_model.specs.Tags.{is_seen};
ghost use Rattle.check_given.specs.Causes.{Finds, SaysRule};
ghost use Rattle.check_given.specs.Given.{all_given, given_of};
ghost use Rattle.check_given.specs.Judging.{AreNamesOf};
ghost use Rattle.check_given.specs.Placing.{IsPut, LeadTo, first_place, is_before};

use crate::refusal::refused;
use check_used::NameSet;
use fnl_tree::LeafValue;
use indexmap::IndexMap;
use rvc_base::{Front, Memory, Rule};
use std::alloc::Global;
use std::marker::Model;

/// Values that the parameters of an actor or a network are given, with an index, so that a look-up takes the same time
/// however many they are.
///
/// Contracts see the list of them.
#[derive(Drop)]
pub struct GivenValues<'a> {
    values: &'a [LeafValue],
    /// Where the first one of each name stands.
    places: IndexMap<String, usize>,
}

impl<'a> Model for GivenValues<'a> {
    ghost use Rattle.std.specs.Prelude.{List, None};
    ghost use Rattle.std.specs.Coded.{codes};
    ghost use Rattle.fnl_tree.specs.contracts.tree.LeafValue as leaf_value;
    ghost use Rattle.fnl_tree.specs.declared.tree.LeafValue.{LeafValue as Declared};
    ghost use Rattle.check_given.specs.Placing.{LeadTo};

    ghost Value = { List Declared };

    ghost coded = { Prim.hlevel (codes, leaf_value.the_row.coded) };

    ghost view = { λ given. given.values.now };

    ghost invariant = { λ given. LeadTo given.places.entries given.values.now };
}

impl<'a> GivenValues<'a> {
    /// These values.
    ///
    /// # Errors
    ///
    /// `Memory` if memory runs out.
    pub fn new(alloc: Global, values: &'a [LeafValue]) -> Result<GivenValues<'a>, Memory>
        ensures { IfOk result (λ given. given ≡ values.entry.now) }
    {
        let mut places = IndexMap::new(alloc);
        put_places(alloc, &mut places, values)?;
        Ok(GivenValues { values, places })
    }

    /// The value that is given to a parameter of the name: the first of those that are given.
    pub fn get(&self, name: &str) -> Option<&LeafValue>
        ensures { option_map (λ g. given_of g.now) result ≡ given_to name.now (all_given self.now) }
    {
        let place = self.first(name)?;
        self.at(place)
    }

    /// That each value is given to a parameter among those of these names, and none of them is given two.
    ///
    /// # Errors
    ///
    /// `Refused`: N2 at a value that is given to no parameter, or to one that is given another before it; of several
    /// such values at the last one.
    pub fn rightly(&self, declared: &NameSet) -> Result<(), Front>
        ensures found { (params : List VarDecl) → AreNamesOf declared.now params
            → Finds result (given_wrongly (all_given self.now) [] params) }
        ensures said { IfErr result (λ fault. SaysRule fault) }
    {
        let mut rest = self.values;
        'backwards: while let Some((last, before)) = rest.split_last() {
            if self.is_wrong(last, before.len(), declared) {
                return Err(refused(Rule::WRONG_PARAMETER, last.place));
            }
            rest = before;
        }
        Ok(())
    }

    /// Whether the value at a place is given to no parameter, or to one that is given another before.
    fn is_wrong(&self, given: &LeafValue, place: usize, declared: &NameSet) -> bool
        ensures { result ≡ (not (is_seen (string_bytes given.now.name) declared.now)
            || is_before (first_place 0 (string_bytes given.now.name) self.now None) place) }
    {
        let name = given.name.as_str();
        !declared.contains(name) || self.stands_before(name, place)
    }

    /// Whether a value of the name stands before a place.
    fn stands_before(&self, name: &str, place: usize) -> bool
        ensures { result ≡ is_before (first_place 0 name.now self.now None) place }
    {
        match self.first(name) {
            Some(first) => first < place,
            None => false,
        }
    }

    /// The value at a place.
    fn at(&self, place: usize) -> Option<&LeafValue>
        ensures { option_map (λ g. given_of g.now) result ≡ slice_get (all_given self.now) place }
    {
        self.values.get(place)
    }

    /// Where the first value of the name stands.
    fn first(&self, name: &str) -> Option<usize>
        ensures { result ≡ first_place 0 name.now self.now None }
    {
        self.places.get(name).copied()
    }
}

/// Puts the places of values under their names, from the last one back, so that the first of a name stays.
fn put_places(
    alloc: Global,
    places: &mut IndexMap<String, usize>,
    values: &[LeafValue],
) -> Result<(), Memory>
    requires { places.old.entries ≡ [] }
    ensures { OnOk result (LeadTo places.new.entries values.now) }
{
    let mut rest = values;
    'backwards: while let Some((last, before)) = rest.split_last() {
        put_place(alloc, places, last.name.as_str(), before.len())?;
        rest = before;
    }
    Ok(())
}

/// Puts a place under a name, also if another one stood there.
fn put_place(
    alloc: Global,
    places: &mut IndexMap<String, usize>,
    name: &str,
    place: usize,
) -> Result<(), Memory>
    ensures { OnOk result (IsPut name.now place places.old.entries places.new.entries) }
{
    let name = String::from_str(alloc, name)?;
    places.insert(name, place)?;
    Ok(())
}
