//! The ports of a network.
#![tactic(auto, using(crate::proofs::Faults::breaks_first, crate::proofs::Faults::fine_first, crate::proofs::Faults::behind_all, crate::proofs::Parts::port_first, crate::proofs::Parts::port_passed))]

ghost use Rattle.std.specs.Prelude.{◌≡◌, [], Some, IfErr, IfOk, OnOk, false, true};
ghost use Rattle.cal_ast.specs.View.{type_tree};
ghost use Rattle.cal_check.specs.Routines.{single_type};
ghost use Rattle.const_env.specs.Held.{names_in};
ghost use Rattle.const_env.specs.Judging.{Judges};
ghost use Rattle.fnl_bind.specs.Values.{end_judged};
ghost use Rattle.fnl_frames.specs.Views.{port_of};
ghost use Rattle.fnl_tree.specs.View.{own_of};
ghost use Rattle.fnl_values.specs.Causes.{Refuses};
ghost use Rattle.fnl_values.specs.InMemory.{owns, ports_broken, typed_ends, with_end_if, with_end_unless};

use cal_ast::TypeExpr;
use cal_model::Shape;
use const_eval::{Env, KindFault, Names, type_judged};
use fnl_read::NetPort;
use fnl_tree::NetEnd;
use rvc_base::{Memory, Rule, Scalar};
use std::alloc::Global;

/// The ports of a network, by their direction.
#[derive(Drop)]
pub(crate) struct Ends {
    pub ins: Vec<NetEnd>,
    pub outs: Vec<NetEnd>,
}

/// A type of single values.
fn single_type(alloc: Global, env: &Env, t: &TypeExpr) -> Result<Scalar, KindFault>
    ensures { Judges (λ t. t) result (single_type (type_tree t.now) (names_in env.now)) }
{
    match type_judged(&Names::outermost(alloc, env), t)? {
        Shape::Scalar(t) => Ok(t),
        Shape::List(_, _) => Err(KindFault::Broken {
            rule: Rule::LIST_NOT_ALLOWED,
            at: t.at,
        }),
    }
}

/// A port with its type.
fn end(alloc: Global, env: &Env, port: &NetPort) -> Result<NetEnd, KindFault>
    ensures { Judges own_of result (end_judged (port_of port.now) (names_in env.now)) }
{
    let kind = single_type(alloc, env, &port.shape)?;
    let name = port.name.clone()?;
    Ok(NetEnd { name, kind })
}

/// Adds a port of a direction.
fn add_end(ends: &mut Ends, input: bool, end: NetEnd) -> Result<(), Memory>
    ensures ins { OnOk result (owns ends.new.ins ≡ with_end_if input end (owns ends.old.ins)) }
    ensures outs { OnOk result
        (owns ends.new.outs ≡ with_end_unless input end (owns ends.old.outs)) }
{
    if input {
        ends.ins.push(end)?;
    } else {
        ends.outs.push(end)?;
    }
    Ok(())
}

/// All ports with their types.
pub(crate) fn typed_ports(alloc: Global, env: &Env, ports: &[NetPort]) -> Result<Ends, KindFault>
    ensures conform { IfOk result (λ ends. ports_broken env.now ports.now ≡ []) }
    ensures ins { IfOk result (λ ends. typed_ends true env.now ports.now ≡ Some (owns ends.ins)) }
    ensures outs { IfOk result (λ ends. typed_ends false env.now ports.now ≡ Some (owns ends.outs)) }
    ensures refused { IfErr result (λ fault. Refuses fault (ports_broken env.now ports.now)) }
{
    let mut ends = Ends {
        ins: Vec::new(alloc),
        outs: Vec::new(alloc),
    };
    let mut rest = ports;
    'ports: while let Some((first, others)) = rest.split_first() {
        let end = end(alloc, env, first)?;
        add_end(&mut ends, first.input, end)?;
        rest = others;
    }
    Ok(ends)
}
