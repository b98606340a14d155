//! What variables come to.

ghost use Rattle.std.specs.Prelude.{◌≡◌, ◌∷◌, ◌++◌, ◌||◌, [], IfOk, List, OnOk, map, option_map, true};
ghost use Rattle.cal_check.specs.Constants.{useless};
ghost use Rattle.cal_check.specs.Variables.{Found, Spot, VarDecl, Valued as ValuedOf, held_if, is_none, none_yet, value_or, with_value};
ghost use Rattle.cal_model.specs.Sound.{AreDistinct};
ghost use Rattle.cal_model.specs.Value.{Items, Nil, kind_of_type};
ghost use Rattle.cal_model.specs.View.{in_order, kind_view, shape_view, value_view, var_view};
ghost use Rattle.check_variable.specs.Views.{var_decl};
ghost use Rattle.check_variable.specs.Valuing.{AreAt, Grows, IsNoted, IsUntyped, IsValued, Notes, broken_in, first_in, first_of, lacking_at, left_over};

use crate::declared::DeclaredVar;
use crate::given::{Constancy, Settled, start_place};
use cal_model::{BoundVar, Kind, Shape, Value, Values};
use check_functions::{DeclaredFun, KnownName};
use check_given::GivenValues;
use check_values::copy;
use rvc_base::{Memory, Place};
use std::alloc::Global;

/// What the variables of an actor are told where it stands: the values that its parameters are given, where those are
/// missed that have none, and the functions that are seen.
#[derive(Clone, Copy)]
pub struct Told<'a> {
    pub alloc: Global,
    pub given: &'a GivenValues<'a>,
    /// The instance as which the actor stands, or the command line.
    pub owner: Place,
    pub funs: &'a [DeclaredFun<'a>],
}

/// What variables come to that break no rule, but perhaps that some types and starts aren't constant.
#[derive(Drop)]
pub struct Valued {
    /// As names while values are sought, in the order of the text.
    pub known: Vec<KnownName>,
    /// Those that have a value, in the order of the text.
    pub held: Vec<BoundVar>,
    /// Where those types and starts break the rule that aren't constant, in the order of the text.
    pub broken: Vec<Place>,
    /// Where the start of the first variable begins that has no value that is of use, though it has a type.
    pub lacking: Option<Place>,
    /// Whether some variable has no value that is of use. Nothing is said then of what isn't constant behind it.
    pub useless: bool,
    /// Whether all types were found. Else the last name that is known is the one before the first without a type.
    pub whole: bool,
}

impl Valued {
    /// No variables.
    pub fn none_yet(alloc: Global) -> Valued
        ensures { IsValued [] result none_yet }
    {
        Valued {
            known: Vec::new(alloc),
            held: Vec::new(alloc),
            broken: Vec::new(alloc),
            lacking: None,
            useless: false,
            whole: true,
        }
    }

    /// Where something isn't constant, if the variables break a rule or one of them has no value, and nothing else is
    /// broken.
    pub fn not_constant(&self) -> Option<Place>
        ensures { (xs : List VarDecl) (owner : Spot) (vs : ValuedOf) → IsValued xs self.now vs
            → AreDistinct (map (λ x. x.name) xs) → AreAt result (left_over xs owner vs) }
    {
        first_of(self.first_broken(), self.lacking)
    }

    /// The first of the places at which something isn't constant.
    pub fn first_broken(&self) -> Option<Place>
        ensures { result ≡ first_in self.now.broken.items }
    {
        match self.broken.first() {
            Some(place) => Some(*place),
            None => None,
        }
    }

    /// Adds a variable of a type and its kind, which comes to this.
    pub(crate) fn add(
        &mut self,
        alloc: Global,
        x: DeclaredVar,
        t: Shape,
        k: Kind,
        settled: Settled,
    ) -> Result<(), Memory>
        requires { kind_view k ≡ kind_of_type (shape_view t) }
        ensures grows { OnOk result (Grows self.old self.new) }
        ensures valued { OnOk result ((xs : List VarDecl) (vs : ValuedOf) (breaks : List Found)
            → IsValued xs self.old vs → Notes settled.constancy (var_decl x.entry) breaks
            → IsValued (xs ++ var_decl x.entry ∷ []) self.new (with_value (var_decl x.entry) (shape_view t)
            (option_map value_view settled.value) breaks vs)) }
    {
        let value = value_or_useless(alloc, &settled.value, &k)?;
        let name = String::from_str(alloc, x.name)?;
        let changes = x.changes;
        self.known.push(KnownName {
            name,
            kind: k,
            value,
            changes,
        })?;
        self.note(x, &settled)?;
        self.useless = either(self.useless, is_absent(&settled.value));
        self.whole = true;
        add_held(alloc, &mut self.held, x, t, settled.value)?;
        Ok(())
    }

    /// Notes whether a start is constant, and whether the variable has a value.
    fn note(&mut self, x: DeclaredVar, settled: &Settled) -> Result<(), Memory>
        ensures { OnOk result (IsNoted settled.now.constancy (option_map value_view settled.now.value)
            (var_decl x.entry) self.old self.new) }
    {
        let absent = is_absent(&settled.value);
        self.lacking = first_of(self.lacking, lacking_at(x, absent));
        add_broken(&mut self.broken, settled.constancy)
    }

    /// Notes that the type of a variable isn't constant: nothing behind it is judged. Nothing is said of it if an earlier
    /// value is of no use.
    pub(crate) fn untyped(&mut self, place: Place) -> Result<(), Memory>
        ensures { OnOk result (IsUntyped place self.old self.new) }
    {
        self.whole = false;
        if self.useless {
            return Ok(());
        }
        add_place(&mut self.broken, place)
    }
}

/// The first of two places, of which one may lack.
fn first_of(a: Option<Place>, b: Option<Place>) -> Option<Place>
    ensures { result ≡ first_of a b }
{
    match a {
        Some(place) => Some(place),
        None => b,
    }
}

/// Where the start of a variable begins, if it has no value.
fn lacking_at(x: DeclaredVar, absent: bool) -> Option<Place>
    ensures { result ≡ lacking_at (var_decl x.entry) absent }
{
    if absent {
        return Some(start_place(x));
    }
    None
}

/// Whether one of both holds.
fn either(a: bool, b: bool) -> bool
    ensures { result ≡ (a || b) }
{
    a || b
}

/// Whether there is no value.
fn is_absent(value: &Option<Value>) -> bool
    ensures { result ≡ is_none (option_map value_view value.now) }
{
    match value {
        Some(_) => false,
        None => true,
    }
}

/// A value, or one of another kind in its place.
fn value_or_useless(alloc: Global, value: &Option<Value>, k: &Kind) -> Result<Value, Memory>
    ensures { IfOk result (λ v. value_view v
        ≡ value_or (option_map value_view value.now) (kind_view k.now)) }
{
    match value {
        Some(value) => copy(alloc, value),
        None => Ok(useless(alloc, k)),
    }
}

/// A value of another kind, which is of no use.
fn useless(alloc: Global, k: &Kind) -> Value
    ensures { value_view result ≡ useless (kind_view k.now) }
{
    match k {
        Kind::List(_, _) => Value::Num(0),
        Kind::Num => empty_list(alloc),
        Kind::Bool => empty_list(alloc),
    }
}

/// A list without items.
fn empty_list(alloc: Global) -> Value
    ensures { value_view result ≡ Items Nil }
{
    list_of(Vec::new(alloc))
}

/// The list of values.
fn list_of(items: Vec<Value>) -> Value
    ensures { value_view result ≡ Items (in_order (map value_view items.items)) }
{
    Value::List(Values { items })
}

/// Adds the place of a start that isn't constant.
fn add_broken(broken: &mut Vec<Place>, constancy: Constancy) -> Result<(), Memory>
    ensures { OnOk result (broken.new.items ≡ broken.old.items ++ broken_in constancy) }
{
    match constancy {
        Constancy::Constant => Ok(()),
        Constancy::Lacking(place) => add_place(broken, place),
    }
}

/// Adds a place.
fn add_place(places: &mut Vec<Place>, place: Place) -> Result<(), Memory>
    ensures { OnOk result (places.new.items ≡ places.old.items ++ place ∷ []) }
{
    places.push(place)?;
    Ok(())
}

/// Adds a variable that has a value.
fn add_held(
    alloc: Global,
    held: &mut Vec<BoundVar>,
    x: DeclaredVar,
    shape: Shape,
    value: Option<Value>,
) -> Result<(), Memory>
    ensures { OnOk result (map var_view held.new.items
        ≡ held_if (option_map value_view value) (var_decl x.entry) (shape_view shape)
        (map var_view held.old.items)) }
{
    let Some(value) = value else {
        return Ok(());
    };
    let name = String::from_str(alloc, x.name)?;
    let changes = x.changes;
    held.push(BoundVar {
        name,
        shape,
        value,
        changes,
    })?;
    Ok(())
}
