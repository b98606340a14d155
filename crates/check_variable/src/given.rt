//! Values that parameters are given.

ghost use Rattle.std.specs.Prelude.{◌≡◌, ℕ, IfErr, List, [], None, OnOk, option_map, true};
ghost use Rattle.std.specs.declared.result.Result.TheVariants.{Ok};
ghost use Rattle.cal_ast.specs.Places.{begins};
ghost use Rattle.cal_ast.specs.View.{optional_expr};
ghost use Rattle.cal_check.specs.Actors.{given_wrongly};
ghost use Rattle.cal_check.specs.Variables.{Come, Given, found_in, given_to};
ghost use Rattle.cal_model.specs.Value.{IsType, Shape as ShapeOf, kind_of_type};
ghost use Rattle.cal_model.specs.View.{kind_view, shape_view, value_view};
ghost use Rattle.check_given.specs.Causes.{Finds, SaysRule};
ghost use Rattle.check_given.specs.Given.{all_given, spot_of};
ghost use Rattle.check_given.specs.Judging.{with_declared};
ghost use Rattle.check_variable.specs.Views.{var_decl, var_decls};
ghost use Rattle.check_variable.specs.Valuing.{ComesTo, Notes, Settles, start_place};

use crate::declared::DeclaredVar;
use crate::starting::Started;
use crate::valued::Told;
use cal_ast::Expr;
use cal_model::{Kind, Shape, Value};
use check_given::{GivenValues, given_stored, refused};
use check_used::NameSet;
use rvc_base::{Front, Memory, Place, Rule};
use std::alloc::Global;

// ---- which are given

/// Adds the names of parameters.
fn add_names(names: &mut NameSet, params: &[DeclaredVar]) -> Result<(), Memory>
    ensures { OnOk result (names.new ≡ with_declared names.old (var_decls params.now)) }
{
    for x in params {
        names.add(x.name)?;
    }
    Ok(())
}

/// That each value is given to a parameter, and none of these is given two.
///
/// # Errors
///
/// `Refused`: N2 at a value that is given to no parameter, or to one that is given another before it. `Memory` if
/// memory runs out.
pub fn given_rightly(
    alloc: Global,
    given: &GivenValues<'_>,
    params: &[DeclaredVar],
) -> Result<(), Front>
    ensures found { Finds result (given_wrongly (all_given given.now) [] (var_decls params.now)) }
    ensures said { IfErr result (λ fault. SaysRule fault) }
{
    let mut names = NameSet::new(alloc);
    let Ok(()) = add_names(&mut names, params) else {
        return Err(Front::Memory);
    };
    given.rightly(&names)
}

// ---- values

/// What is known of whether a start is constant.
#[derive(Clone, Copy, Debug)]
pub(crate) enum Constancy {
    /// Nothing is said of it: it is constant, or needs a value that is of no use.
    Constant,
    /// It isn't, at this place.
    Lacking(Place),
}

/// What a variable holds at first, if it has a value that is of use, and what is known of its start.
#[derive(Drop)]
pub(crate) struct Settled {
    pub value: Option<Value>,
    pub constancy: Constancy,
}

/// The offset at which a start begins, or 0 if there is none.
fn place_of(start: &Option<Expr>) -> u32
    ensures { result ≡ begins (optional_expr start.now) }
{
    match start {
        Some(e) => e.at,
        None => 0,
    }
}

/// The value that a start comes to.
fn value_started(started: Started) -> Option<Value>
    ensures { (c : Come) (at : ℕ) → ComesTo (Ok started) c at → c.value ≡ option_map value_view result }
{
    match started {
        Started::Value(value) => Some(value),
        Started::Useless => None,
        Started::NotConstant(_) => None,
    }
}

/// What is known of whether a start of a variable is constant.
fn constancy_of(x: DeclaredVar, started: &Started) -> Constancy
    ensures { (c : Come) → ComesTo (Ok started.now) c (begins (optional_expr x.entry.start.now))
        → Notes result (var_decl x.entry) (found_in x.entry.file c.breaks) }
{
    match started {
        Started::Value(_) => Constancy::Constant,
        Started::Useless => Constancy::Constant,
        Started::NotConstant(offset) => Constancy::Lacking(Place {
            file: x.file,
            offset: *offset,
        }),
    }
}

/// Where the start of a variable begins.
pub(crate) fn start_place(x: DeclaredVar) -> Place
    ensures { result ≡ start_place (var_decl x.entry) }
{
    Place {
        file: x.file,
        offset: place_of(x.start),
    }
}

/// What a parameter holds at first that starts so and isn't given a value.
fn defaulted(
    x: DeclaredVar,
    owner: Place,
    started: Started,
    constancy: Constancy,
) -> Result<Settled, Front>
    ensures { (c : Come) (at : ℕ) (gs : List Given) (t : ShapeOf) → x.entry.is_param ≡ true
        → given_to x.entry.name.now gs ≡ None → ComesTo (Ok started) c at
        → Notes constancy (var_decl x.entry) (found_in x.entry.file c.breaks)
        → Settles result (var_decl x.entry) gs (spot_of owner) t c }
{
    if x.start.is_none() {
        return Err(refused(Rule::WRONG_PARAMETER, owner));
    }
    let value = value_started(started);
    Ok(Settled { value, constancy })
}

/// What a variable holds at first that starts so: of a parameter the value that it is given, if it is given one.
pub(crate) fn settle(
    told: Told<'_>,
    x: DeclaredVar,
    t: &Shape,
    k: &Kind,
    started: Started,
) -> Result<Settled, Front>
    requires allowed { IsType (shape_view t.now) }
    requires kind { kind_view k.now ≡ kind_of_type (shape_view t.now) }
    ensures { (c : Come) → ComesTo (Ok started) c (begins (optional_expr x.entry.start.now))
        → Settles result (var_decl x.entry) (all_given told.entry.given.now) (spot_of told.entry.owner)
        (shape_view t.now) c }
{
    let constancy = constancy_of(x, &started);
    if !x.is_param {
        let value = value_started(started);
        return Ok(Settled { value, constancy });
    }
    let Some(g) = told.given.get(x.name) else {
        return defaulted(x, told.owner, started, constancy);
    };
    let value = given_stored(told.alloc, t, k, g)?;
    Ok(Settled {
        value: Some(value),
        constancy,
    })
}
