//! Values that a network gives to an instance.
#![tactic(auto, using(crate::proofs::Faults::breaks_first, crate::proofs::Faults::fine_first, crate::proofs::Faults::behind_all, crate::proofs::Faults::behind_more, crate::proofs::Parts::given_first))]

ghost use Rattle.std.specs.Prelude.{◌≡◌, IfOk, Some, map};
ghost use Rattle.const_env.specs.Held.{names_in};
ghost use Rattle.const_env.specs.Judging.{Judges};
ghost use Rattle.fnl_bind.specs.Values.{given_as, parameter_judged};
ghost use Rattle.fnl_frames.specs.Views.{parameter_of};
ghost use Rattle.check_given.specs.Given.{given_of};
ghost use Rattle.fnl_values.specs.InMemory.{value_given};
ghost use Rattle.fnl_values.specs.Judging.{GivesAll};
ghost use Rattle.fnl_values.specs.Steady.{IsSteady};

use crate::constant::value;
use const_eval::{Env, KindFault};
use fnl_read::NetParameter;
use fnl_tree::LeafValue;
use rvc_base::Place;
use std::alloc::Global;

/// The value of a parameter of an instance, over the names of the network in which it stands.
fn parameter(alloc: Global, env: &Env, file: u32, p: &NetParameter) -> Result<LeafValue, KindFault>
    requires { IsSteady env.now }
    ensures judged { Judges value_given result
        (parameter_judged (parameter_of p.now) (names_in env.now)) }
    ensures given { IfOk result
        (λ g. given_as file (parameter_of p.now) (value_given g) ≡ Some (given_of g)) }
{
    let value = value(alloc, env, &p.value)?;
    let name = p.name.clone()?;
    let place = Place { file, offset: p.at };
    Ok(LeafValue { name, value, place })
}

/// The values of all parameters of an instance, in order.
pub(crate) fn parameters(
    alloc: Global,
    env: &Env,
    file: u32,
    parameters: &[NetParameter],
) -> Result<Vec<LeafValue>, KindFault>
    requires { IsSteady env.now }
    ensures { GivesAll result file (map parameter_of parameters.now) (names_in env.now) }
{
    let mut given = Vec::new(alloc);
    let mut rest = parameters;
    'parameters: while let Some((first, others)) = rest.split_first() {
        given.push(parameter(alloc, env, file, first)?)?;
        rest = others;
    }
    Ok(given)
}
