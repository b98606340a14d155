//! The names and functions that expressions are judged and evaluated over.

ghost use Rattle.std.specs.Prelude.{◌≡◌, true};
ghost use Rattle.cal_model.specs.View.{value_view};
ghost use Rattle.const_env.specs.Sizes.{is_sized_fun};
ghost use Rattle.const_env.specs.Lengths.{is_counted};

use crate::held::Entry;
use crate::kinds::kind_of_value;
use crate::meant::Meant;
use crate::places::Places;
use cal_model::{BoundFun, Kind, Value};
use rvc_base::Memory;
use std::alloc::Global;
use std::marker::Model;

/// The names and the functions that an expression may use.
///
/// Contracts see the names, each with its kind, its value if it is a constant, and whether it may be assigned, the one
/// that was added last first, since it hides those of its name; and the functions in the order in which they were added.
/// A look-up takes the same time however many they are.
#[derive(Drop)]
pub struct Env {
    entries: Vec<Entry>,
    /// Where the last entry of each name stands.
    entry_places: Places,
    funs: Vec<BoundFun>,
    fun_places: Places,
}

impl Model for Env {
    ghost use Rattle.std.specs.Prelude.{◌≡◌, [], map, true};
    ghost use Rattle.std.specs.Coded.{codes};
    ghost use Rattle.cal_model.specs.Kinding.{known_as};
    ghost use Rattle.cal_model.specs.View.{fun_view};
    ghost use Rattle.cal_model.specs.contracts.bound.BoundFun as fun;
    ghost use Rattle.cal_model.specs.contracts.kind.Kind as kind;
    ghost use Rattle.cal_model.specs.contracts.value.Value as value;
    ghost use Rattle.const_env.specs.Held.{Kept, entry_view, last_first};
    ghost use Rattle.const_env.specs.Sizes.{are_sized_funs};
    ghost use Rattle.const_env.specs.Standing.{LeadEach, StandFirst};

    ghost Value = { Kept };

    ghost coded = { Prim.hlevel (codes, kind.the_row.coded, value.the_row.coded, fun.the_row.coded) };

    ghost view = { λ env. record { entries = env.entries.items; funs = env.funs.items } };

    ghost invariant = { λ env. (are_sized_funs (map fun_view env.funs.items) ≡ true)
        × LeadEach entry_view env.entries.items env.entry_places
        (λ name. known_as name (last_first entry_view env.entries.items []))
        × StandFirst (map fun_view env.funs.items) env.fun_places };
}

impl Env {
    ghost use Rattle.std.specs.Prelude.{◌++◌, ◌∷◌, [], Some, false, OnOk, OnErr, IfSome, length, option_map, string_bytes};
    ghost use Rattle.cal_model.specs.Call.{fun_named};
    ghost use Rattle.cal_model.specs.Kinding.{known_as};
    ghost use Rattle.cal_model.specs.View.{fun_view, kind_view};
    ghost use Rattle.const_env.specs.Constants.{constant_named, has_fun, has_value, known_of, with_set};
    ghost use Rattle.const_env.specs.Counting.{meant_view, use_of};
    ghost use Rattle.const_env.specs.Held.{entry_view, globals_of, held, names_in};
    ghost use Rattle.const_env.specs.Standing.{fun_place};

    /// No names and no functions.
    pub fn new(alloc: Global) -> Env
        ensures names { globals_of result ≡ [] }
        ensures funs { (held result).funs ≡ [] }
    {
        Env {
            entries: Vec::new(alloc),
            entry_places: Places::new(alloc),
            funs: Vec::new(alloc),
            fun_places: Places::new(alloc),
        }
    }

    /// Whether a constant has the name.
    pub fn has_value(&self, name: &str) -> bool
        ensures { result ≡ has_value name.now (held self.now).values }
    {
        self.value(name).is_some()
    }

    /// Whether a function has the name.
    pub fn has_fun(&self, name: &str) -> bool
        ensures { result ≡ has_fun name.now (held self.now).funs }
    {
        self.fun(name).is_some()
    }

    /// Adds a name, which hides those of its name that were added before.
    ///
    /// # Errors
    ///
    /// `Memory` if memory runs out; the environment is as before then (`memory`).
    pub fn add(
        &mut self,
        name: &str,
        kind: Kind,
        value: Option<Value>,
        changes: bool,
    ) -> Result<(), Memory>
        ensures added { OnOk result (globals_of self.new ≡ (record {
          name = name.now;
          kind = kind_view kind;
          value = option_map value_view value;
          changes = changes;
        }) ∷ globals_of self.old) }
        ensures same_funs { (held self.new).funs ≡ (held self.old).funs }
        ensures memory { OnErr result (names_in self.new ≡ names_in self.old) }
    {
        let own = String::from_str(*self.entries.allocator(), name)?;
        self.entry_places.put_next(name, &mut self.entries)?;
        self.entries.push(Entry {
            name: own,
            kind,
            value,
            changes,
        })?;
        Ok(())
    }

    /// Adds a constant of the kind that its value has. 32 bits count the length of its lists.
    ///
    /// [`is_counted`](crate::is_counted) tests the condition.
    ///
    /// # Errors
    ///
    /// `Memory` if memory runs out; the environment is as before then (`memory`).
    pub fn add_value(&mut self, name: &str, value: Value) -> Result<(), Memory>
        requires counted { is_counted (value_view value) ≡ true }
        ensures added { OnOk result (globals_of self.new
            ≡ known_of (record { name = name.now; value = value_view value }) ∷
            globals_of self.old) }
        ensures same_funs { (held self.new).funs ≡ (held self.old).funs }
        ensures memory { OnErr result (names_in self.new ≡ names_in self.old) }
    {
        let kind = kind_of_value(*self.entries.allocator(), &value)?;
        self.add(name, kind, Some(value), false)
    }

    /// Adds a function. The sizes of its types are ones that types may have.
    ///
    /// [`Env::has_fun`] tests the first condition.
    ///
    /// # Errors
    ///
    /// `Memory` if memory runs out; the environment is as before then (`memory`).
    pub fn add_fun(&mut self, fun: BoundFun) -> Result<(), Memory>
        requires new { has_fun (string_bytes fun.name) (held self.old).funs ≡ false }
        requires sized { is_sized_fun (fun_view fun) ≡ true }
        ensures added { OnOk result ((held self.new).funs
            ≡ (held self.old).funs ++ fun_view fun ∷ []) }
        ensures same_names { globals_of self.new ≡ globals_of self.old }
        ensures memory { OnErr result (names_in self.new ≡ names_in self.old) }
    {
        self.fun_places.put_next(fun.name.as_str(), &mut self.funs)?;
        self.funs.push(fun)?;
        Ok(())
    }

    /// Puts a function in the place of the one of its name, or adds it. The sizes of its types are ones that types may
    /// have.
    ///
    /// # Errors
    ///
    /// `Memory` if memory runs out; the environment is as before then (`memory`).
    pub fn set_fun(&mut self, fun: BoundFun) -> Result<(), Memory>
        requires sized { is_sized_fun (fun_view fun) ≡ true }
        ensures set { OnOk result ((held self.new).funs
            ≡ with_set (fun_view fun) (held self.old).funs) }
        ensures same_names { globals_of self.new ≡ globals_of self.old }
        ensures memory { OnErr result (names_in self.new ≡ names_in self.old) }
    {
        match self.fun_places.get(fun.name.as_str()) {
            Some(place) => {
                self.put_fun(place, fun);
                Ok(())
            }
            None => self.add_fun(fun),
        }
    }

    /// Puts a function in the place of the one of its name, which stands there.
    fn put_fun(&mut self, place: usize, fun: BoundFun)
        requires sized { is_sized_fun (fun_view fun) ≡ true }
        requires there { fun_place (string_bytes fun.name) (held self.old).funs ≡ Some place }
        ensures set { (held self.new).funs ≡ with_set (fun_view fun) (held self.old).funs }
        ensures same_names { globals_of self.new ≡ globals_of self.old }
    {
        self.funs[place] = fun;
    }

    /// How many functions there are.
    pub fn fun_count(&self) -> usize
        ensures { result ≡ length (held self.now).funs }
    {
        self.funs.len()
    }

    /// The value of the name, if it is a constant.
    pub fn value(&self, name: &str) -> Option<&Value>
        ensures { option_map (λ v. value_view v.now) result
            ≡ constant_named name.now (held self.now).values }
    {
        match self.entry(name) {
            Some(entry) => entry.value(),
            None => None,
        }
    }

    /// What a name means.
    pub(crate) fn meant(&self, name: &str) -> Option<Meant<'_>>
        ensures { option_map meant_view result
            ≡ option_map use_of (known_as name.now (globals_of self.now)) }
    {
        match self.entry(name) {
            Some(entry) => Some(Meant {
                kind: Some(&entry.kind),
                changes: entry.changes,
            }),
            None => None,
        }
    }

    /// The function of the name.
    pub fn fun(&self, name: &str) -> Option<&BoundFun>
        ensures is { option_map (λ f. fun_view f.now) result
            ≡ fun_named name.now (held self.now).funs }
        ensures sized { IfSome result (λ f. is_sized_fun (fun_view f.now) ≡ true) }
    {
        let place = self.fun_places.get(name)?;
        self.funs.get(place)
    }

    /// The last entry of the name.
    fn entry(&self, name: &str) -> Option<&Entry>
        ensures { option_map (λ x. entry_view x.now) result
            ≡ known_as name.now (globals_of self.now) }
    {
        let place = self.entry_places.get(name)?;
        self.entries.get(place)
    }
}
