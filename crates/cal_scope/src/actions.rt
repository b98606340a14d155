//! Actions with each name written out in full.
#![tactic(auto, using(crate::proofs::Judged::breaks_on))]

ghost use Rattle.std.specs.Prelude.{◌≡◌, OnOk, option_map};
ghost use Rattle.cal_ast.specs.View.{action_tree, body_tree, ident_tree, optional, output_tree, pattern_tree};
ghost use Rattle.cal_scope.specs.Asked.{expr_trees, exprs_tree, names_tree, output_trees, pattern_trees, patterns_tree};
ghost use Rattle.cal_scope.specs.Expressions.{declared_by, exprs_resolved};
ghost use Rattle.cal_scope.specs.Judging.{Judges};
ghost use Rattle.cal_scope.specs.Members.{declared_by_patterns, names_judged, pattern_names, port_judged};
ghost use Rattle.cal_scope.specs.PortView.{action_among, output_among, outputs_among, pattern_among, patterns_among};
ghost use Rattle.cal_scope.specs.Statements.{else_resolved};
ghost use Rattle.cal_scope.specs.View.{names_view, seen_in};

use crate::copies::{equal_names, optional_name, optional_tag};
use crate::expr::exprs;
use crate::fault::ScopeFault;
use crate::frames::{Frame, Inside};
use crate::name_set::NameSet;
use crate::ports::PortNames;
use crate::stmt::optional_stmts;
use crate::vars::{optional, twice, vars};
use cal_ast::{Action, Expr, Ident, Output, Pattern, Stmt};
use rvc_base::Rule;

/// A port that is named, if one is, is one of the wanted direction.
fn port(port: &Option<Ident>, wanted: &NameSet, others: &NameSet) -> Result<(), ScopeFault>
    ensures { Judges (λ _. tt) result
        (port_judged (optional (option_map ident_tree port.now)) wanted.now others.now) }
{
    let Some(port) = port else {
        return Ok(());
    };
    let name = port.text.as_str();
    if wanted.has(name) {
        return Ok(());
    }
    if others.has(name) {
        return Err(ScopeFault::Broken {
            rule: Rule::NOT_AS_ASKED,
            at: port.at,
        });
    }
    Err(ScopeFault::Broken {
        rule: Rule::UNKNOWN_NAME,
        at: port.at,
    })
}

/// Names of pattern variables, each declared once. They are added to those of the scope.
fn pattern_variables(variables: &[Ident], here: &mut NameSet) -> Result<(), ScopeFault>
    ensures judged { Judges (λ _. tt) result (names_judged (names_tree variables.now) here.old) }
    ensures here { OnOk result (here.new ≡ declared_by (names_tree variables.now) here.old) }
{
    let mut rest = variables;
    'names: while let Some((first, others)) = rest.split_first() {
        if here.has(first.text.as_str()) {
            return Err(twice(first.at));
        }
        here.add(first.text.as_str())?;
        rest = others;
    }
    Ok(())
}

/// A pattern. Its variables are added to those of the scope; its `repeat` sees none of them.
fn pattern(
    names: &Inside,
    ports: &PortNames,
    p: &Pattern,
    here: &mut NameSet,
) -> Result<Pattern, ScopeFault>
    ensures judged { Judges pattern_tree result
        (pattern_among ports.now p.now here.old (names_view names.now)) }
    ensures here { OnOk result (here.new ≡ pattern_names (pattern_tree p.now) here.old) }
{
    port(&p.port, &ports.ins, &ports.outs)?;
    pattern_variables(&p.names, here)?;
    let repeat = optional(names, &p.repeat)?;
    Ok(Pattern {
        port: optional_name(names.alloc, &p.port)?,
        names: equal_names(names.alloc, &p.names)?,
        repeat,
        at: p.at,
    })
}

/// Patterns in order. Their variables are added to those of the scope.
fn patterns(
    names: &Inside,
    ports: &PortNames,
    patterns: &[Pattern],
    here: &mut NameSet,
) -> Result<Vec<Pattern>, ScopeFault>
    ensures judged { Judges pattern_trees result
        (patterns_among ports.now patterns.now here.old (names_view names.now)) }
    ensures here { OnOk result (here.new ≡ declared_by_patterns (patterns_tree patterns.now)
        here.old) }
{
    let mut found = Vec::new(names.alloc);
    for p in patterns {
        found.push(pattern(names, ports, p, here)?)?;
    }
    Ok(found)
}

/// An output.
fn output(names: &Inside, ports: &PortNames, o: &Output) -> Result<Output, ScopeFault>
    ensures { Judges output_tree result
        (output_among ports.now o.now (names_view names.now)) }
{
    port(&o.port, &ports.outs, &ports.ins)?;
    let values = exprs(names, &o.values)?;
    let repeat = optional(names, &o.repeat)?;
    Ok(Output {
        port: optional_name(names.alloc, &o.port)?,
        values,
        repeat,
        at: o.at,
    })
}

/// Outputs in order.
fn outputs(names: &Inside, ports: &PortNames, outputs: &[Output]) -> Result<Vec<Output>, ScopeFault>
    ensures { Judges output_trees result (outputs_among ports.now outputs.now (names_view names.now)) }
{
    let mut found = Vec::new(names.alloc);
    for o in outputs {
        found.push(output(names, ports, o)?)?;
    }
    Ok(found)
}

/// Expressions inside a scope.
fn exprs_in(names: &Inside, here: &NameSet, list: &[Expr]) -> Result<Vec<Expr>, ScopeFault>
    ensures { Judges expr_trees result (exprs_resolved (exprs_tree list.now) (seen_in here.now names.now)) }
{
    let frame = Frame {
        names: here,
        outer: names.frame,
    };
    exprs(&names.under(&frame), list)
}

/// Statements that may be missing, inside a scope.
fn body_in(
    names: &Inside,
    here: &NameSet,
    body: &Option<Vec<Stmt>>,
) -> Result<Option<Vec<Stmt>>, ScopeFault>
    ensures { Judges body_tree result
        (else_resolved (body_tree body.now) (seen_in here.now names.now)) }
{
    let frame = Frame {
        names: here,
        outer: names.frame,
    };
    optional_stmts(&names.under(&frame), body)
}

/// Outputs inside a scope.
fn outputs_in(
    names: &Inside,
    here: &NameSet,
    ports: &PortNames,
    list: &[Output],
) -> Result<Vec<Output>, ScopeFault>
    ensures { Judges output_trees result (outputs_among ports.now list.now (seen_in here.now names.now)) }
{
    let frame = Frame {
        names: here,
        outer: names.frame,
    };
    outputs(&names.under(&frame), ports, list)
}

/// An action, whose pattern variables and locals are one scope.
pub(crate) fn action(names: &Inside, ports: &PortNames, a: &Action) -> Result<Action, ScopeFault>
    ensures { Judges action_tree result
        (action_among ports.now a.now (names_view names.now)) }
{
    let mut here = NameSet::new(names.alloc);
    let patterns = patterns(names, ports, &a.patterns, &mut here)?;
    let guards = exprs_in(names, &here, &a.guards)?;
    let vars = vars(names, &a.vars, &mut here)?;
    let body = body_in(names, &here, &a.body)?;
    let outputs = outputs_in(names, &here, ports, &a.outputs)?;
    Ok(Action {
        tag: optional_tag(names.alloc, &a.tag)?,
        initialize: a.initialize,
        patterns,
        outputs,
        guards,
        vars,
        body,
        at: a.at,
    })
}
