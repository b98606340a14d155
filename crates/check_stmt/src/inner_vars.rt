//! Variables that are declared inside.
#![tactic(auto, using(crate::proofs::Judged::breaks_on))]

ghost use Rattle.std.specs.Prelude.{false};
ghost use Rattle.cal_ast.specs.View.{optional_expr, type_tree, var_tree};
ghost use Rattle.cal_model.specs.Kinding.{type_judged};
ghost use Rattle.cal_model.specs.View.{kind_view};
ghost use Rattle.const_env.specs.Counting.{names_view};
ghost use Rattle.cal_check.specs.Violations.{said};
ghost use Rattle.check_stmt.specs.Declaring.{DeclaresAll, DeclaresAllSaid, DeclaresSaid, TypesSaid, seen_behind, start_stored};
ghost use Rattle.check_stmt.specs.Judging.{Checks};

use crate::part::{check_stored, is_passed};
use cal_ast::{Expr, TypeExpr, VarDecl};
use cal_model::{Kind, Shape, kind_of_type};
use const_eval::{Inside, KindFault, Names, Variable, Variables, type_judged};

/// Variables, each of which sees those before it, as names for what stands behind them.
///
/// # Errors
///
/// `Broken` if a type or a start breaks a rule: one of those that are broken, and its place. `Memory` if memory runs out.
pub fn vars(names: &Names, vars: &[VarDecl]) -> Result<Variables, KindFault>
    ensures { DeclaresAll result vars.now names.now (names_view names.now) }
{
    match check_vars(names, vars, false)? {
        Some(found) => Ok(found),
        None => unreachable!(),
    }
}

/// The same. If `passes`, what isn't constant is passed over; there are no names behind the variables then if it is the
/// type of one.
///
/// # Errors
///
/// As those of [`vars`].
pub fn check_vars(
    names: &Names,
    vars: &[VarDecl],
    passes: bool,
) -> Result<Option<Variables>, KindFault>
    ensures { DeclaresAllSaid passes result vars.now names.now (names_view names.now) }
{
    let mut found = Variables::new(names.alloc);
    let mut rest = vars;
    'vars: while let Some((first, others)) = rest.split_first() {
        let Some(variable) = var_behind(names, &found, first, passes)? else {
            return Ok(None);
        };
        found.add(variable)?;
        rest = others;
    }
    Ok(Some(found))
}

/// A variable that stands behind others.
fn var_behind(
    names: &Names,
    before: &Variables,
    v: &VarDecl,
    passes: bool,
) -> Result<Option<Variable>, KindFault>
    ensures { DeclaresSaid passes result (var_tree v.now) (seen_behind before.now names.now) }
{
    let inside = Inside {
        variables: Some(before),
        gens: &[],
        outer: names.inner,
    };
    var(&names.under(&inside), v, passes)
}

/// A variable with its type and its start; none if its type isn't constant, and that is passed over.
fn var(names: &Names, v: &VarDecl, passes: bool) -> Result<Option<Variable>, KindFault>
    ensures { DeclaresSaid passes result (var_tree v.now) (names_view names.now) }
{
    let Some(t) = typed(names, &v.shape, passes)? else {
        return Ok(None);
    };
    let k = kind_of_type(names.alloc, &t)?;
    start(names, &k, &v.start, passes)?;
    let name = v.name.text.clone()?;
    Ok(Some(Variable {
        name,
        kind: k,
        changes: v.changes,
    }))
}

/// A type; none if it isn't constant, and that is passed over.
#[tactic(auto, using(crate::proofs::Said::passed_is, crate::proofs::Said::kept_said))]
fn typed(names: &Names, shape: &TypeExpr, passes: bool) -> Result<Option<Shape>, KindFault>
    ensures { TypesSaid passes result (type_judged (type_tree shape.now) (names_view names.now)) }
{
    match type_judged(names, shape) {
        Ok(t) => Ok(Some(t)),
        Err(fault) => {
            if is_passed(fault, passes) {
                return Ok(None);
            }
            Err(fault)
        }
    }
}

/// A start that may be missing.
fn start(names: &Names, k: &Kind, start: &Option<Expr>, passes: bool) -> Result<(), KindFault>
    ensures { Checks result (said passes
        (start_stored (kind_view k.now) (optional_expr start.now) (names_view names.now))) }
{
    match start {
        Some(e) => check_stored(names, k, e, passes),
        None => Ok(()),
    }
}
