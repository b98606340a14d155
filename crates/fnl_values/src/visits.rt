//! Instances with what they are given.
#![tactic(auto, using(crate::proofs::Faults::refuses_in_first, crate::proofs::Faults::refuses_in_others, crate::proofs::Parts::visit_more, crate::proofs::Parts::visits_all))]

ghost use Rattle.std.specs.Prelude.{◌≡◌, [], IfErr, IfOk};
ghost use Rattle.fnl_values.specs.Causes.{Refuses};
ghost use Rattle.fnl_values.specs.InMemory.{GivesTo, visits_broken};
ghost use Rattle.fnl_values.specs.Steady.{IsSteady};

use crate::parameters::parameters;
use const_eval::{Env, KindFault};
use fnl_read::NetInstance;
use fnl_tree::LeafValue;
use std::alloc::Global;
use std::collections::VecDeque;

/// An instance with the values of its parameters.
#[derive(Drop)]
pub struct Visit<'a> {
    pub instance: &'a NetInstance,
    /// In the order of the `Parameter` elements.
    pub given: Vec<LeafValue>,
}

/// All instances in order, with the values that they are given.
pub(crate) fn visits<'a>(
    alloc: Global,
    env: &Env,
    file: u32,
    instances: &'a [NetInstance],
) -> Result<VecDeque<Visit<'a>>, KindFault>
    requires { IsSteady env.now }
    ensures conform { IfOk result (λ visits. visits_broken env.now instances.entry.now ≡ []) }
    ensures given { IfOk result
        (λ visits. GivesTo file env.now instances.entry.now visits.items) }
    ensures refused { IfErr result (λ fault. Refuses fault
        (visits_broken env.now instances.entry.now)) }
{
    let mut visits = VecDeque::new(alloc);
    let mut rest = instances;
    'instances: while let Some((instance, others)) = rest.split_first() {
        let given = parameters(alloc, env, file, &instance.parameters)?;
        visits.push_back(Visit { instance, given })?;
        rest = others;
    }
    Ok(visits)
}
