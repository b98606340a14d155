//! Output expressions.
#![tactic(auto, using(crate::proofs::Judged::breaks_on, crate::proofs::Judged::breaks_rate, check_stmt::proofs::Said::said_none, check_stmt::proofs::Said::said_on, check_stmt::proofs::Said::said_next))]

ghost use Rattle.std.specs.Prelude.{◌≤◌, ℕ, length};
ghost use Rattle.cal_ast.specs.View.{output_tree};
ghost use Rattle.cal_model.specs.Sound.{max_ports};
ghost use Rattle.cal_model.specs.View.{kind_view};
ghost use Rattle.const_env.specs.Counting.{names_view};
ghost use Rattle.const_env.specs.Judging.{Judges};
ghost use Rattle.cal_check.specs.Actions.{output_judged, outputs_broken, outputs_on, values_judged};
ghost use Rattle.cal_check.specs.Violations.{all_broken, broken, said};
ghost use Rattle.check_member.specs.Asking.{outputs_tree, port_views};
ghost use Rattle.check_member.specs.Parts.{exprs_tree};
ghost use Rattle.check_stmt.specs.Judging.{Checks};
ghost use Rattle.check_action.specs.Parts.{output_on};

use crate::fault::as_kind_fault;
use crate::repeats::{rate, repeat};
use crate::tokens::{kind_of_tokens, type_of_port};
use cal_ast::{Expr, Output};
use cal_model::{Kind, Port};
use check_member::output_ports;
use check_stmt::{kinds, passed, stored};
use const_eval::{KindFault, Names};
use rvc_base::Scalar;

/// The outputs of an action, each on its port. What isn't constant is passed over if `passes`.
///
/// # Errors
///
/// `Broken`, if no two outputs are on one port and each port is there: one of the rules that an output breaks, as
/// [`output_repeat`] names it. Else as those of [`output_ports`](check_member::output_ports). `Memory` if memory runs
/// out.
pub fn check_outputs(
    names: &Names,
    outs: &[Port],
    outputs: &[Output],
    passes: bool,
) -> Result<(), KindFault>
    requires { length outs.now ≤ max_ports }
    ensures { Checks result (said passes (outputs_broken (outputs_tree outputs.now)
        (port_views outs.now) (names_view names.now))) }
{
    match output_ports(names.alloc, outputs, outs) {
        Ok(numbers) => outputs_on(names, outs, outputs, &numbers, passes),
        Err(f) => Err(as_kind_fault(f)),
    }
}

/// Outputs on the ports of these numbers.
fn outputs_on(
    names: &Names,
    outs: &[Port],
    outputs: &[Output],
    numbers: &[u32],
    passes: bool,
) -> Result<(), KindFault>
    ensures { Checks result (said passes (all_broken (outputs_on (outputs_tree outputs.now)
        numbers.now (port_views outs.now) (names_view names.now)))) }
{
    let mut rest = outputs;
    let mut left = numbers;
    'outputs: while let Some((first, others)) = rest.split_first() {
        let Some((number, later)) = left.split_first() else {
            return Ok(());
        };
        check_output(names, first, type_of_port(outs, *number), passes)?;
        rest = others;
        left = later;
    }
    Ok(())
}

/// An output on a port of a type. What isn't constant is passed over if `passes`.
fn check_output(names: &Names, o: &Output, t: Scalar, passes: bool) -> Result<(), KindFault>
    ensures { (port : ℕ) → Checks result (said passes
        (broken (output_judged (output_tree o.now) port t (names_view names.now)))) }
{
    match output_repeat(names, o, t) {
        Ok(_) => Ok(()),
        Err(fault) => passed(fault, passes),
    }
}

/// How often an output on a port of a type is repeated, if it breaks no rule.
///
/// # Errors
///
/// `Broken`: the first rule that a value or the repeat breaks, T1 or T5 at a value that isn't of the port's type, or Z5
/// at the output if its repeat is below 1 or it gives more than 4,096 tokens. `Memory` if memory runs out.
pub fn output_repeat(names: &Names, o: &Output, t: Scalar) -> Result<Option<u32>, KindFault>
    ensures { (port : ℕ) → Judges (output_on port o.now names.now) result
        (output_judged (output_tree o.now) port t (names_view names.now)) }
{
    kinds(names, &o.values)?;
    let times = repeat(names, &o.repeat, o.at)?;
    let k = kind_of_tokens(names.alloc, t, times)?;
    values(names, &k, &o.values)?;
    rate(o.values.len(), times, o.at)?;
    Ok(times)
}

/// That each value is of a kind.
fn values(names: &Names, k: &Kind, values: &[Expr]) -> Result<(), KindFault>
    ensures { Judges (λ u. u) result
        (values_judged (kind_view k.now) (exprs_tree values.now) (names_view names.now)) }
{
    let mut rest = values;
    'values: while let Some((first, others)) = rest.split_first() {
        stored(names, k, first)?;
        rest = others;
    }
    Ok(())
}
