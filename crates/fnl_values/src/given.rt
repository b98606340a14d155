//! Values that parameters are given.

ghost use Rattle.std.specs.Prelude.{◌≡◌, ℕ, [], IfOk, OnOk, Some};
ghost use Rattle.cal_ast.specs.View.{optional_expr};
ghost use Rattle.cal_check.specs.Actors.{given_wrongly};
ghost use Rattle.cal_model.specs.Value.{HasKind, IsType, kind_of_type};
ghost use Rattle.cal_model.specs.View.{kind_view, shape_view, value_view};
ghost use Rattle.fnl_bind.specs.Library.{var_decl};
ghost use Rattle.fnl_frames.specs.Views.{decl_of};
ghost use Rattle.fnl_values.specs.InMemory.{SettlesDecl, params_in};
ghost use Rattle.fnl_values.specs.Judging.{Settles, bare_broken};
ghost use Rattle.check_given.specs.Causes.{Finds};
ghost use Rattle.check_given.specs.Given.{all_given, spot_of};
ghost use Rattle.check_given.specs.Judging.{with_declared};

use cal_model::{Kind, Shape, Value};
use check_given::{GivenValues, given_stored, refused};
use check_used::NameSet;
use fnl_read::NetDecl;
use rvc_base::{Front, Memory, Place, Rule};
use std::alloc::Global;

// ---- which are given

/// Adds the names of the declarations that are parameters.
fn add_parameters(names: &mut NameSet, decls: &[NetDecl]) -> Result<(), Memory>
    ensures { OnOk result ((file : ℕ) → names.new
        ≡ with_declared names.old (params_in file decls.now)) }
{
    let mut rest = decls;
    'decls: while let Some((first, others)) = rest.split_first() {
        if first.param {
            names.add(first.name.as_str())?;
        }
        rest = others;
    }
    Ok(())
}

/// That each value is given to a parameter, and none of these is given two.
pub(crate) fn given_rightly(
    alloc: Global,
    given: &GivenValues<'_>,
    decls: &[NetDecl],
) -> Result<(), Front>
    ensures { (file : ℕ) → Finds result
        (given_wrongly (all_given given.now) [] (params_in file decls.now)) }
{
    let mut names = NameSet::new(alloc);
    let Ok(()) = add_parameters(&mut names, decls) else {
        return Err(Front::Memory);
    };
    given.rightly(&names)
}

// ---- values

/// A parameter that is given no value has its default.
fn defaulted(decl: &NetDecl, owner: Place, start: Value) -> Result<Value, Front>
    ensures { Settles result (Some (value_view start))
        (bare_broken (optional_expr decl.now.value) (spot_of owner)) }
{
    if decl.value.is_none() {
        return Err(refused(Rule::WRONG_PARAMETER, owner));
    }
    Ok(start)
}

/// The value of a declaration that starts with a value: of a parameter the one that it is given, if it is given one.
pub(crate) fn value_of(
    alloc: Global,
    decl: &NetDecl,
    given: &GivenValues<'_>,
    owner: Place,
    t: &Shape,
    k: &Kind,
    start: Value,
) -> Result<Value, Front>
    requires allowed { IsType (shape_view t.now) }
    requires kind { kind_view k.now ≡ kind_of_type (shape_view t.now) }
    requires starts { HasKind (kind_of_type (shape_view t.now)) (value_view start) }
    ensures settles { (file : ℕ) → SettlesDecl result
        (var_decl file (decl_of decl.now)) given.now owner t.now start }
    ensures kind { IfOk result (λ v. HasKind (kind_of_type (shape_view t.now)) (value_view v)) }
{
    if !decl.param {
        return Ok(start);
    }
    match given.get(decl.name.as_str()) {
        Some(given) => given_stored(alloc, t, k, given),
        None => defaulted(decl, owner, start),
    }
}
