//! What actions send to output ports.

ghost use Rattle.std.specs.Prelude.{◌≡◌, ◌≤◌, length};
ghost use Rattle.cal_ast.specs.View.{output_tree};
ghost use Rattle.cal_check.specs.Actions.{output_judged, outputs_on};
ghost use Rattle.cal_model.specs.Selection.{kind_of_port};
ghost use Rattle.cal_model.specs.Sound.{max_ports};
ghost use Rattle.cal_model.specs.View.{output_view};
ghost use Rattle.const_env.specs.Counting.{names_view};
ghost use Rattle.const_env.specs.Judging.{Judges};
ghost use Rattle.check_member.specs.Asking.{outputs_tree, port_views};
ghost use Rattle.check_action.specs.Faults.{as_kind_fault};
ghost use Rattle.check_action.specs.Parts.{JudgesAll};
ghost use Rattle.check_build_action.specs.Building.{FindsOutputs};

use cal_ast::Output;
use cal_model::{BoundOutput, Port};
use check_action::output_repeat;
use check_fold::exprs;
use check_member::{MemberFault, output_ports};
use const_eval::{KindFault, Names};
use rvc_base::Scalar;

/// What an action sends to its output ports, with sizes and bounds written out.
///
/// # Errors
///
/// `Broken` if an output breaks a rule: one of those that they break, and its place. `Memory` if memory runs out.
pub fn outputs(
    names: &Names,
    outs: &[Port],
    outputs: &[Output],
) -> Result<Vec<BoundOutput>, KindFault>
    requires { length outs.now ≤ max_ports }
    ensures { FindsOutputs result (outputs_tree outputs.now) (port_views outs.now)
        (names_view names.now) }
{
    match output_ports(names.alloc, outputs, outs) {
        Ok(numbers) => outputs_on(names, outs, outputs, &numbers),
        Err(f) => Err(as_kind_fault(f)),
    }
}

/// Outputs on the ports of these numbers.
fn outputs_on(
    names: &Names,
    outs: &[Port],
    outputs: &[Output],
    numbers: &[u32],
) -> Result<Vec<BoundOutput>, KindFault>
    ensures { JudgesAll output_view result (outputs_on (outputs_tree outputs.now) numbers.now
        (port_views outs.now) (names_view names.now)) }
{
    let mut found = Vec::new(names.alloc);
    let mut rest = outputs;
    let mut left = numbers;
    'outputs: while let Some((first, others)) = rest.split_first() {
        let Some((number, later)) = left.split_first() else {
            return Ok(found);
        };
        let next = output(names, first, *number, type_of_port(outs, *number))?;
        found.push(next)?;
        rest = others;
        left = later;
    }
    Ok(found)
}

/// An output to the port of this number, whose tokens are of this type.
fn output(names: &Names, o: &Output, port: u32, t: Scalar) -> Result<BoundOutput, KindFault>
    ensures { Judges output_view result
        (output_judged (output_tree o.now) port t (names_view names.now)) }
{
    let repeat = output_repeat(names, o, t)?;
    let values = exprs(names, &o.values)?;
    Ok(BoundOutput {
        port,
        values,
        repeat,
    })
}

/// The type of a port; that of truth values if there is no such port.
fn type_of_port(ports: &[Port], number: u32) -> Scalar
    ensures { result ≡ kind_of_port (port_views ports.now) number }
{
    match ports.get(number as usize) {
        Some(port) => port.kind,
        None => Scalar::Bool,
    }
}

/// The same fault, as one of kinds.
fn as_kind_fault(f: MemberFault) -> KindFault
    ensures { result ≡ as_kind_fault f }
{
    match f {
        MemberFault::Broken { rule, at } => KindFault::Broken { rule, at },
        MemberFault::Memory => KindFault::Memory,
    }
}
