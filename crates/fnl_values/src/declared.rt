//! The declarations of a network, in the order of the text.

ghost use Rattle.std.specs.Prelude.{◌≡◌, IfOk, OnOk};
ghost use Rattle.cal_model.specs.Value.{HasKind, IsType, kind_of_type};
ghost use Rattle.cal_model.specs.View.{kind_view, shape_view, value_view};
ghost use Rattle.fnl_values.specs.InMemory.{AreDeclared, IsDeclared, IsValued};
ghost use Rattle.fnl_values.specs.Steady.{IsSteady};

use crate::early::early_type;
use crate::fault::in_file;
use crate::given::value_of;
use crate::start::start;
use cal_model::{Kind, Shape, Value, kind_of_type};
use check_given::GivenValues;
use const_eval::Env;
use fnl_read::NetDecl;
use rvc_base::{Front, Memory, Place};
use std::alloc::Global;

/// What a network is told where it stands: the number of its file, the values that its parameters are given, and where
/// those are missed that have none.
#[derive(Clone, Copy)]
pub(crate) struct Told<'a> {
    pub alloc: Global,
    pub file: u32,
    pub given: &'a GivenValues<'a>,
    pub owner: Place,
}

/// The value of a declaration of a type and its kind.
fn value(told: Told<'_>, env: &Env, decl: &NetDecl, t: &Shape, k: &Kind) -> Result<Value, Front>
    requires steady { IsSteady env.now }
    requires allowed { IsType (shape_view t.now) }
    requires kind { kind_view k.now ≡ kind_of_type (shape_view t.now) }
    ensures comes { IsValued result told.entry decl.now t.now env.now }
    ensures kind { IfOk result (λ v. HasKind (kind_of_type (shape_view t.now)) (value_view v)) }
{
    let start = match start(told.alloc, env, t, k, &decl.value) {
        Ok(start) => start,
        Err(fault) => return Err(in_file(told.file, fault)),
    };
    value_of(told.alloc, decl, told.given, told.owner, t, k, start)
}

/// One declaration more, which sees those before it.
fn declare(told: Told<'_>, env: &mut Env, decl: &NetDecl) -> Result<(), Front>
    requires { IsSteady env.old }
    ensures declares { IsDeclared result told.entry decl.now env.old env.new }
    ensures steady { OnOk result (IsSteady env.new) }
{
    let t = match early_type(told.alloc, env, &decl.shape) {
        Ok(t) => t,
        Err(fault) => return Err(in_file(told.file, fault)),
    };
    let Ok(k) = kind_of_type(told.alloc, &t) else {
        return Err(Front::Memory);
    };
    let value = value(told, env, decl, &t, &k)?;
    match env.add(decl.name.as_str(), k, Some(value), false) {
        Ok(()) => Ok(()),
        Err(Memory) => Err(Front::Memory),
    }
}

/// All declarations in order, as constants.
pub(crate) fn declared(told: Told<'_>, decls: &[NetDecl]) -> Result<Env, Front>
    ensures declares { AreDeclared result told.entry decls.now }
    ensures steady { IfOk result (λ env. IsSteady env) }
{
    let mut env = Env::new(told.alloc);
    let mut rest = decls;
    'decls: while let Some((first, others)) = rest.split_first() {
        declare(told, &mut env, first)?;
        rest = others;
    }
    Ok(env)
}
