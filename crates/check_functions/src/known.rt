//! Names that are known.

ghost use Rattle.std.specs.Prelude.{◌≡◌, ◌∷◌, [], IfOk, OnOk, option_map};
ghost use Rattle.cal_model.specs.View.{value_view};
ghost use Rattle.const_env.specs.Held.{globals_of, held, last_first, names_in};
ghost use Rattle.check_functions.specs.Known.{all_known, known_at, known_view, names_alone, value_seen};

use cal_model::{Kind, Value};
use check_values::copy;
use const_eval::{Env, Meant};
use rvc_base::Memory;
use std::alloc::Global;

/// A variable, a parameter or a constant with the value that it begins with. One that has none has a value of another
/// kind, so that whatever needs it has none either.
#[derive(Drop)]
pub struct KnownName {
    pub name: String,
    pub kind: Kind,
    pub value: Value,
    /// Whether it may be assigned.
    pub changes: bool,
}

/// The value that is seen of a name: none at rest if it changes.
fn value_seen(alloc: Global, at_rest: bool, x: &KnownName) -> Result<Option<Value>, Memory>
    ensures { IfOk result (λ v. option_map value_view v
        ≡ value_seen at_rest x.now.changes (value_view x.now.value)) }
{
    if at_rest && x.changes {
        return Ok(None);
    }
    Ok(Some(copy(alloc, &x.value)?))
}

/// Adds a name to those of an environment.
fn add_known(env: &mut Env, alloc: Global, at_rest: bool, x: &KnownName) -> Result<(), Memory>
    ensures added { OnOk result (globals_of env.new ≡ known_at at_rest x.now ∷ globals_of env.old) }
    ensures same_funs { OnOk result ((held env.new).funs ≡ (held env.old).funs) }
{
    let meant = Meant {
        kind: Some(&x.kind),
        changes: x.changes,
    };
    let kind = meant.copied(alloc)?;
    let value = value_seen(alloc, at_rest, x)?;
    env.add(x.name.as_str(), kind, value, x.changes)
}

/// Names without functions.
pub(crate) fn names_without(
    alloc: Global,
    at_rest: bool,
    known: &[KnownName],
) -> Result<Env, Memory>
    ensures names { IfOk result (λ env. globals_of env
        ≡ last_first (known_at at_rest) known.now []) }
    ensures no_funs { IfOk result (λ env. (held env).funs ≡ []) }
{
    let mut env = Env::new(alloc);
    let mut rest = known;
    'names: while let Some((first, others)) = rest.split_first() {
        add_known(&mut env, alloc, at_rest, first)?;
        rest = others;
    }
    Ok(env)
}

/// The names alone, without functions.
///
/// # Errors
///
/// `Memory` if memory runs out.
pub fn names_alone(alloc: Global, known: &[KnownName]) -> Result<Env, Memory>
    ensures { IfOk result (λ env. names_in env ≡ names_alone (all_known known.now)) }
{
    let env = names_without(alloc, false, known)?;
    Ok(env)
}

/// Adds a name with its value to those of an environment.
///
/// # Errors
///
/// `Memory` if memory runs out. What the environment has isn't said then.
pub fn add_name(env: &mut Env, alloc: Global, x: &KnownName) -> Result<(), Memory>
    ensures added { OnOk result (globals_of env.new ≡ known_view x.now ∷ globals_of env.old) }
    ensures same_funs { OnOk result ((held env.new).funs ≡ (held env.old).funs) }
{
    add_known(env, alloc, false, x)
}
