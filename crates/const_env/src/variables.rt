//! Names without a value in order, with an index.

ghost use Rattle.std.specs.Prelude.{◌≡◌};
ghost use Rattle.cal_model.specs.Kinding.{known_as};

use crate::inside::Variable;
use crate::meant::Meant;
use crate::places::Places;
use cal_model::Kind;
use rvc_base::Memory;
use std::alloc::Global;
use std::marker::Model;

/// Variables, of which a later one stands inside. A look-up takes the same time however many they are.
///
/// Contracts see the list of them, in the order in which they were added.
#[derive(Drop)]
pub struct Variables {
    variables: Vec<Variable>,
    /// Where the last one of each name stands.
    places: Places,
}

impl Model for Variables {
    ghost use Rattle.std.specs.Prelude.{List, []};
    ghost use Rattle.std.specs.Coded.{codes};
    ghost use Rattle.cal_model.specs.Kinding.{known_as};
    ghost use Rattle.const_env.specs.Held.{last_first};
    ghost use Rattle.const_env.specs.Standing.{LeadEach, seen_variable};
    ghost use Rattle.const_env.specs.declared.inside.Variable.{Variable as Declared};
    ghost use Rattle.const_env.specs.contracts.inside.Variable as variable;

    ghost Value = { List Declared };

    ghost coded = { Prim.hlevel (codes, variable.the_row.coded) };

    ghost view = { λ these. these.variables.items };

    ghost invariant = { λ these. LeadEach seen_variable these.variables.items these.places
        (λ name. known_as name (last_first seen_variable these.variables.items [])) };
}

impl Variables {
    ghost use Rattle.std.specs.Prelude.{◌++◌, List, ◌∷◌, [], OnOk, OnErr, IfOk, map, option_map};
    ghost use Rattle.const_env.specs.Counting.{Variable as Seen, counter_variable, declared_by, known_variable, meant_view, use_of};
    ghost use Rattle.const_env.specs.Held.{last_first};
    ghost use Rattle.const_env.specs.Standing.{seen_variable};

    /// No variables. It takes no memory.
    pub fn new(alloc: Global) -> Variables
        ensures { result ≡ [] }
    {
        Variables {
            variables: Vec::new(alloc),
            places: Places::new(alloc),
        }
    }

    /// The variable of a loop alone: a number that isn't assigned.
    ///
    /// # Errors
    ///
    /// `Memory` if memory runs out.
    pub fn of_counter(alloc: Global, name: &str) -> Result<Variables, Memory>
        ensures { IfOk result (λ variables. (outer : List Seen)
            → declared_by variables outer ≡ counter_variable name.now ∷ outer) }
    {
        let mut variables = Variables::new(alloc);
        let name = String::from_str(alloc, name)?;
        variables.add(Variable {
            name,
            kind: Kind::Num,
            changes: false,
        })?;
        Ok(variables)
    }

    /// Adds a variable, which hides those of its name that were added before.
    ///
    /// # Errors
    ///
    /// `Memory` if memory runs out; the variables are as before then (`memory`).
    pub fn add(&mut self, variable: Variable) -> Result<(), Memory>
        ensures added { OnOk result (self.new ≡ self.old ++ variable ∷ []) }
        ensures memory { OnErr result (self.new ≡ self.old) }
    {
        self.places
            .put_next(variable.name.as_str(), &mut self.variables)?;
        self.variables.push(variable)?;
        Ok(())
    }

    /// What a name means among them: the last one of the name.
    #[tactic(auto, using(crate::proofs::Leading::variables_seen))]
    pub(crate) fn meant(&self, name: &str) -> Option<Meant<'_>>
        ensures { option_map meant_view result ≡ option_map use_of
            (known_as name.now (map known_variable (declared_by self.now []))) }
    {
        match self.last(name) {
            Some(variable) => Some(Meant {
                kind: Some(&variable.kind),
                changes: variable.changes,
            }),
            None => None,
        }
    }

    /// The last one of the name.
    fn last(&self, name: &str) -> Option<&Variable>
        ensures { option_map (λ x. seen_variable x.now) result
            ≡ known_as name.now (last_first seen_variable self.now []) }
    {
        let place = self.places.get(name)?;
        self.variables.get(place)
    }
}
