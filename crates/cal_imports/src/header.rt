//! Headers of actors with each name written out in full.
#![tactic(auto, using(cal_scope::proofs::Judged::breaks_on))]

ghost use Rattle.cal_ast.specs.View.{optional_expr, param_tree, port_tree};
ghost use Rattle.cal_scope.specs.Asked.{outermost, params_tree, port_trees, ports_tree};
ghost use Rattle.cal_scope.specs.Expressions.{optional_resolved};
ghost use Rattle.cal_scope.specs.Judging.{Judges};
ghost use Rattle.cal_imports.specs.Asked.{param_trees};
ghost use Rattle.cal_imports.specs.OneFile.{header_resolved, param_resolved, params_resolved, port_resolved};

use cal_ast::{Expr, Param, PortDecl};
use cal_scope::{FileNames, ScopeFault, resolve_expr, resolve_type};
use std::alloc::Global;

/// An expression that may be missing.
fn optional(names: &FileNames, e: &Option<Expr>) -> Result<Option<Expr>, ScopeFault>
    ensures { Judges optional_expr result
        (optional_resolved (optional_expr e.now) (outermost names.now)) }
{
    match e {
        Some(e) => Ok(Some(resolve_expr(names, e)?)),
        None => Ok(None),
    }
}

/// A parameter, whose type and default see the names of the file.
fn param(alloc: Global, names: &FileNames, p: &Param) -> Result<Param, ScopeFault>
    ensures { Judges param_tree result (param_resolved (param_tree p.now) (outermost names.now)) }
{
    let shape = resolve_type(names, &p.shape)?;
    let start = optional(names, &p.start)?;
    let name = p.name.copy(alloc)?;
    Ok(Param {
        shape,
        name,
        start,
        at: p.at,
    })
}

/// Parameters in order.
pub(crate) fn params(
    alloc: Global,
    names: &FileNames,
    list: &[Param],
) -> Result<Vec<Param>, ScopeFault>
    ensures { Judges param_trees result
        (params_resolved (params_tree list.now) (outermost names.now)) }
{
    let mut found = Vec::new(alloc);
    for p in list {
        found.push(param(alloc, names, p)?)?;
    }
    Ok(found)
}

/// A port, whose type sees them too.
fn port(alloc: Global, names: &FileNames, p: &PortDecl) -> Result<PortDecl, ScopeFault>
    ensures { Judges port_tree result (port_resolved (port_tree p.now) (outermost names.now)) }
{
    let shape = resolve_type(names, &p.shape)?;
    let name = p.name.copy(alloc)?;
    Ok(PortDecl {
        shape,
        name,
        at: p.at,
    })
}

/// Ports in order.
pub(crate) fn ports(
    alloc: Global,
    names: &FileNames,
    list: &[PortDecl],
) -> Result<Vec<PortDecl>, ScopeFault>
    ensures { Judges port_trees result
        (header_resolved (ports_tree list.now) (outermost names.now)) }
{
    let mut found = Vec::new(alloc);
    for p in list {
        found.push(port(alloc, names, p)?)?;
    }
    Ok(found)
}
