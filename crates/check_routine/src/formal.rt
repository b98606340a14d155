//! Formals of functions and procedures.
#![tactic(auto, using(crate::proofs::Judged::breaks_on))]

ghost use Rattle.std.specs.Prelude.{◌≡◌, IfOk};
ghost use Rattle.cal_ast.specs.View.{port_tree};
ghost use Rattle.cal_model.specs.Sound.{known_local};
ghost use Rattle.cal_model.specs.View.{local_view};
ghost use Rattle.const_env.specs.Counting.{known_variable, names_view, variable_view};
ghost use Rattle.const_env.specs.Judging.{Judges};
ghost use Rattle.cal_check.specs.Routines.{formal_judged, formals_judged};
ghost use Rattle.check_stmt.specs.Declaring.{seen_behind};
ghost use Rattle.check_routine.specs.Heads.{AreSeen, formals_view, ports_tree};

use crate::single::single_type;
use cal_ast::PortDecl;
use cal_model::{BoundLocal, Shape, kind_of_type};
use const_eval::{Inside, KindFault, Names, Variable, Variables};
use rvc_base::Memory;
use std::alloc::Global;

/// Formals: the locals that they are, and the same as names for what stands behind them.
#[derive(Drop)]
pub struct FoundFormals {
    pub locals: Vec<BoundLocal>,
    pub seen: Variables,
}

/// Formals, the type of each of which sees those before it.
///
/// # Errors
///
/// `Broken`: the first rule that a type breaks, or T8 at it if it is that of lists. `Memory` if memory runs out.
pub fn formals(names: &Names, formals: &[PortDecl]) -> Result<FoundFormals, KindFault>
    ensures judged { Judges formals_view result
        (formals_judged (ports_tree formals.now) (names_view names.now)) }
    ensures seen { IfOk result (λ found. AreSeen found names.now) }
{
    let mut locals = Vec::new(names.alloc);
    let mut seen = Variables::new(names.alloc);
    let mut rest = formals;
    'formals: while let Some((first, others)) = rest.split_first() {
        let local = formal_behind(names, &seen, first)?;
        seen.add(name_of(names.alloc, &local)?)?;
        locals.push(local)?;
        rest = others;
    }
    Ok(FoundFormals { locals, seen })
}

/// A formal that stands behind others.
fn formal_behind(names: &Names, before: &Variables, f: &PortDecl) -> Result<BoundLocal, KindFault>
    ensures { Judges local_view result
        (formal_judged (port_tree f.now) (seen_behind before.now names.now)) }
{
    let inside = Inside {
        variables: Some(before),
        gens: &[],
        outer: names.inner,
    };
    formal(&names.under(&inside), f)
}

/// A formal, by its type.
fn formal(names: &Names, f: &PortDecl) -> Result<BoundLocal, KindFault>
    ensures { Judges local_view result (formal_judged (port_tree f.now) (names_view names.now)) }
{
    let t = single_type(names, &f.shape)?;
    let name = f.name.text.clone()?;
    Ok(BoundLocal {
        name,
        shape: Shape::Scalar(t),
        start: None,
        changes: true,
    })
}

/// A local as a name for what stands behind it.
fn name_of(alloc: Global, local: &BoundLocal) -> Result<Variable, Memory>
    ensures { IfOk result (λ x. known_variable (variable_view x)
        ≡ known_local (local_view local.now)) }
{
    let kind = kind_of_type(alloc, &local.shape)?;
    let name = local.name.clone()?;
    Ok(Variable {
        name,
        kind,
        changes: local.changes,
    })
}
