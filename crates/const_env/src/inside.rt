//! The names that are declared round an expression.

ghost use Rattle.std.specs.Prelude.{◌≡◌, [], map, option_map};
ghost use Rattle.cal_model.specs.Kinding.{known_as};
ghost use Rattle.const_env.specs.Counting.{declared_by, inner_variables, known_variable, meant_view, named_by, own_variables, use_of};

use crate::meant::Meant;
use crate::variables::Variables;
use cal_ast::Gen;
use cal_model::Kind;

/// A name without a value, with its kind: a formal, a local, or a variable of a pattern or of a loop.
#[derive(Drop)]
pub struct Variable {
    pub name: String,
    pub kind: Kind,
    /// Whether it may be assigned.
    pub changes: bool,
}

/// Variables, of which a later one stands inside, the generators of a comprehension inside them, and what is declared
/// round them.
#[derive(Clone, Copy, Drop)]
pub struct Inside<'a> {
    pub variables: Option<&'a Variables>,
    pub gens: &'a [Gen],
    pub outer: Option<&'a Inside<'a>>,
}

impl<'a> Inside<'a> {
    ghost use Rattle.const_env.specs.declared.inside.Inside.{out-Inside};

    /// Generators, and what is declared round them.
    pub fn of_gens(gens: &'a [Gen], outer: Option<&'a Inside<'a>>) -> Inside<'a>
        ensures variables { own_variables (out-Inside result).variables ≡ [] }
        ensures gens { (out-Inside result).gens.now ≡ gens.entry.now }
        ensures outer { inner_variables (out-Inside result).outer ≡ inner_variables outer.entry }
    {
        Inside {
            variables: None,
            gens,
            outer,
        }
    }
}

/// What a name means among those that are declared inside: an inner one hides an outer one.
pub fn meant_inside<'a>(name: &str, inside: Option<&'a Inside<'a>>) -> Option<Meant<'a>>
    ensures { option_map meant_view result
        ≡ option_map use_of (known_as name.now (map known_variable (inner_variables inside.entry))) }
{
    let mut at = inside;
    'outwards: while let Some(these) = at {
        if let Some(meant) = meant_by(name, these.variables, these.gens) {
            return Some(meant);
        }
        at = these.outer;
    }
    None
}

/// What a name means among variables and the generators inside them.
fn meant_by<'a>(name: &str, variables: Option<&'a Variables>, gens: &'a [Gen]) -> Option<Meant<'a>>
    ensures { option_map meant_view result ≡ option_map use_of (known_as name.now (map known_variable
        (named_by gens.entry.now (declared_by (own_variables variables.entry) [])))) }
{
    if let Some(meant) = counter_in(name, gens) {
        return Some(meant);
    }
    variable_in(name, variables)
}

/// The last variable of the name.
fn variable_in<'a>(name: &str, variables: Option<&'a Variables>) -> Option<Meant<'a>>
    ensures { option_map meant_view result ≡ option_map use_of
        (known_as name.now (map known_variable (declared_by (own_variables variables.entry) []))) }
{
    match variables {
        Some(variables) => variables.meant(name),
        None => None,
    }
}

/// The generator of the name: a number that isn't assigned.
fn counter_in<'a>(name: &str, gens: &'a [Gen]) -> Option<Meant<'a>>
    ensures { option_map meant_view result ≡ option_map use_of
        (known_as name.now (map known_variable (named_by gens.entry.now []))) }
{
    let mut rest = gens;
    'backwards: while let Some((last, others)) = rest.split_last() {
        if last.name.text.as_str() == name {
            return Some(Meant {
                kind: None,
                changes: false,
            });
        }
        rest = others;
    }
    None
}
