//! The names that members and actors use.

ghost use Rattle.cal_ast.specs.View.{action_tree, actor_tree, member_tree, output_tree, param_tree};
ghost use Rattle.check_used.specs.Naming.{AddsNames, members_tree, outputs_tree, params_tree, patterns_tree};

use crate::exprs::{add_exprs, add_optional, add_type};
use crate::name_set::NameSet;
use crate::stmts::{add_function, add_optional_stmts, add_ports, add_procedure, add_var, add_vars};
use cal_ast::{Action, Actor, Member, Output, Param, Pattern};
use rvc_base::Memory;

/// Adds the names in an actor.
pub(crate) fn add_actor(names: &mut NameSet, a: &Actor) -> Result<(), Memory>
    ensures { AddsNames result (actor_tree a.now) names.old names.new }
{
    add_params(names, &a.params)?;
    add_ports(names, &a.ins)?;
    add_ports(names, &a.outs)?;
    add_members(names, &a.members)
}

/// Adds the names in parameters in order.
fn add_params(names: &mut NameSet, params: &[Param]) -> Result<(), Memory>
    ensures { AddsNames result (params_tree params.now) names.old names.new }
{
    let mut rest = params;
    'params: while let Some((first, others)) = rest.split_first() {
        add_param(names, first)?;
        rest = others;
    }
    Ok(())
}

/// Adds the names in a parameter.
fn add_param(names: &mut NameSet, p: &Param) -> Result<(), Memory>
    ensures { AddsNames result (param_tree p.now) names.old names.new }
{
    add_type(names, &p.shape)?;
    add_optional(names, &p.start)
}

/// Adds the names in members in order.
fn add_members(names: &mut NameSet, members: &[Member]) -> Result<(), Memory>
    ensures { AddsNames result (members_tree members.now) names.old names.new }
{
    let mut rest = members;
    'members: while let Some((first, others)) = rest.split_first() {
        add_member(names, first)?;
        rest = others;
    }
    Ok(())
}

/// Adds the names in a member. A schedule and priorities use none.
fn add_member(names: &mut NameSet, m: &Member) -> Result<(), Memory>
    ensures { AddsNames result (member_tree m.now) names.old names.new }
{
    match m {
        Member::Var(v) => add_var(names, v),
        Member::Function(f) => add_function(names, f),
        Member::Procedure(p) => add_procedure(names, p),
        Member::Action(a) => add_action(names, a),
        Member::Schedule(_) => Ok(()),
        Member::Priority(_) => Ok(()),
    }
}

/// Adds the names in an action.
fn add_action(names: &mut NameSet, a: &Action) -> Result<(), Memory>
    ensures { AddsNames result (action_tree a.now) names.old names.new }
{
    add_patterns(names, &a.patterns)?;
    add_outputs(names, &a.outputs)?;
    add_exprs(names, &a.guards)?;
    add_vars(names, &a.vars)?;
    add_optional_stmts(names, &a.body)
}

/// Adds the names in the repeats of patterns.
fn add_patterns(names: &mut NameSet, patterns: &[Pattern]) -> Result<(), Memory>
    ensures { AddsNames result (patterns_tree patterns.now) names.old names.new }
{
    let mut rest = patterns;
    'patterns: while let Some((first, others)) = rest.split_first() {
        add_optional(names, &first.repeat)?;
        rest = others;
    }
    Ok(())
}

/// Adds the names in outputs in order.
fn add_outputs(names: &mut NameSet, outputs: &[Output]) -> Result<(), Memory>
    ensures { AddsNames result (outputs_tree outputs.now) names.old names.new }
{
    let mut rest = outputs;
    'outputs: while let Some((first, others)) = rest.split_first() {
        add_output(names, first)?;
        rest = others;
    }
    Ok(())
}

/// Adds the names in an output.
fn add_output(names: &mut NameSet, o: &Output) -> Result<(), Memory>
    ensures { AddsNames result (output_tree o.now) names.old names.new }
{
    add_exprs(names, &o.values)?;
    add_optional(names, &o.repeat)
}
