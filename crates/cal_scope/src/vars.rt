//! Variables, formals and parts that may be missing.
#![tactic(auto, using(crate::proofs::Judged::breaks_on))]

ghost use Rattle.std.specs.Prelude.{◌≡◌, [], OnOk};
ghost use Rattle.cal_ast.specs.View.{optional_expr, port_tree, var_tree};
ghost use Rattle.cal_scope.specs.Asked.{port_trees, ports_tree, var_trees, vars_tree};
ghost use Rattle.cal_scope.specs.Expressions.{declared_by, optional_resolved};
ghost use Rattle.cal_scope.specs.Judging.{Judges};
ghost use Rattle.cal_scope.specs.Members.{formal_resolved, formals_resolved};
ghost use Rattle.cal_scope.specs.Statements.{var_resolved, vars_resolved};
ghost use Rattle.cal_scope.specs.View.{names_view, seen_in};
ghost use Rattle.rvc_base.specs.Rules.{declared_twice};

use crate::expr::{expr, type_expr};
use crate::fault::ScopeFault;
use crate::frames::{Frame, Inside};
use crate::name_set::NameSet;
use cal_ast::{Expr, PortDecl, VarDecl};
use rvc_base::Rule;

/// A name is declared a second time in its scope.
pub(crate) fn twice(at: u32) -> ScopeFault
    ensures { result ≡ ScopeFault.Broken declared_twice at }
{
    ScopeFault::Broken {
        rule: Rule::DECLARED_TWICE,
        at,
    }
}

/// An expression that may be missing.
pub(crate) fn optional(names: &Inside, e: &Option<Expr>) -> Result<Option<Expr>, ScopeFault>
    ensures { Judges optional_expr result
        (optional_resolved (optional_expr e.now) (names_view names.now)) }
{
    match e {
        Some(e) => Ok(Some(expr(names, e)?)),
        None => Ok(None),
    }
}

/// Variables of a scope in order, each of which sees those before it. Their names are added to those of the scope.
pub(crate) fn vars(
    names: &Inside,
    vars: &[VarDecl],
    here: &mut NameSet,
) -> Result<Vec<VarDecl>, ScopeFault>
    ensures judged { Judges var_trees result (vars_resolved (vars_tree vars.now) here.old
        (names_view names.now)) }
    ensures here { OnOk result (here.new ≡ declared_by (vars_tree vars.now) here.old) }
{
    let mut found = Vec::new(names.alloc);
    for v in vars {
        found.push(var(names, here, v)?)?;
        here.add(v.name.text.as_str())?;
    }
    Ok(found)
}

/// A variable of a scope that has declared these names.
fn var(names: &Inside, here: &NameSet, v: &VarDecl) -> Result<VarDecl, ScopeFault>
    ensures { Judges var_tree result
        (var_resolved (var_tree v.now) here.now (seen_in here.now names.now)) }
{
    if here.has(v.name.text.as_str()) {
        return Err(twice(v.at));
    }
    let frame = Frame {
        names: here,
        outer: names.frame,
    };
    first_var(&names.under(&frame), v)
}

/// A variable whose name its scope hasn't declared yet, or that is no part of a scope inside a file.
pub(crate) fn first_var(names: &Inside, v: &VarDecl) -> Result<VarDecl, ScopeFault>
    ensures { Judges var_tree result (var_resolved (var_tree v.now) [] (names_view names.now)) }
{
    let shape = type_expr(names, &v.shape)?;
    let start = optional(names, &v.start)?;
    let name = v.name.copy(names.alloc)?;
    Ok(VarDecl {
        shape,
        name,
        start,
        changes: v.changes,
        at: v.at,
    })
}

/// Formals in order, each of which sees those before it. Their names are added to those of the scope.
pub(crate) fn formals(
    names: &Inside,
    formals: &[PortDecl],
    here: &mut NameSet,
) -> Result<Vec<PortDecl>, ScopeFault>
    ensures judged { Judges port_trees result (formals_resolved (ports_tree formals.now) here.old
        (names_view names.now)) }
    ensures here { OnOk result (here.new ≡ declared_by (ports_tree formals.now) here.old) }
{
    let mut found = Vec::new(names.alloc);
    for f in formals {
        found.push(formal(names, here, f)?)?;
        here.add(f.name.text.as_str())?;
    }
    Ok(found)
}

/// A formal of a function or a procedure that has declared these names.
fn formal(names: &Inside, here: &NameSet, f: &PortDecl) -> Result<PortDecl, ScopeFault>
    ensures { Judges port_tree result
        (formal_resolved (port_tree f.now) here.now (seen_in here.now names.now)) }
{
    if here.has(f.name.text.as_str()) {
        return Err(twice(f.at));
    }
    let frame = Frame {
        names: here,
        outer: names.frame,
    };
    first_formal(&names.under(&frame), f)
}

/// A formal whose name isn't declared yet.
fn first_formal(names: &Inside, f: &PortDecl) -> Result<PortDecl, ScopeFault>
    ensures { Judges port_tree result
        (formal_resolved (port_tree f.now) [] (names_view names.now)) }
{
    let shape = type_expr(names, &f.shape)?;
    let name = f.name.copy(names.alloc)?;
    Ok(PortDecl {
        shape,
        name,
        at: f.at,
    })
}
