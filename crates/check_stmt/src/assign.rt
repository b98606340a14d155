//! Assignments.
#![tactic(auto, using(crate::proofs::Judged::breaks_on, crate::proofs::Said::said_none, crate::proofs::Said::said_on, crate::proofs::Said::said_behind))]

ghost use Rattle.std.specs.Prelude.{◌++◌, map, string_bytes};
ghost use Rattle.cal_ast.specs.Tree.{listed};
ghost use Rattle.cal_ast.specs.View.{expr_tree};
ghost use Rattle.cal_model.specs.Kinding.{kinds, meant_by};
ghost use Rattle.cal_model.specs.View.{kind_view};
ghost use Rattle.const_env.specs.Counting.{names_view};
ghost use Rattle.const_env.specs.Judging.{Judges};
ghost use Rattle.cal_check.specs.Statements.{assigned_kind, assignment_judged, kind_at_places, may_be_assigned};
ghost use Rattle.cal_check.specs.Violations.{broken, said};
ghost use Rattle.check_stmt.specs.Judging.{Checks};

use crate::part::{passed, stored};
use cal_ast::{Expr, Ident};
use cal_model::Kind;
use const_eval::{KindFault, Names, item_kind, kind};
use rvc_base::Rule;

/// An assignment to a variable, or to a place in one. What isn't constant is passed over if `passes`.
pub(crate) fn assign(
    names: &Names,
    name: &Ident,
    places: &[Expr],
    value: &Expr,
    at: u32,
    passes: bool,
) -> Result<(), KindFault>
    ensures { Checks result (said passes (broken (assignment_judged (string_bytes name.now.text)
        name.now.at (listed (map expr_tree places.now)) (expr_tree value.now) (names_view names.now))
        ++ may_be_assigned (meant_by (string_bytes name.now.text) (names_view names.now)) at)) }
{
    check_assigned(names, name, places, value, passes)?;
    may_be_assigned(names, name.text.as_str(), at, passes)
}

/// The places, and what is stored there. What isn't constant is passed over if `passes`.
fn check_assigned(
    names: &Names,
    name: &Ident,
    places: &[Expr],
    value: &Expr,
    passes: bool,
) -> Result<(), KindFault>
    ensures { Checks result (said passes (broken (assignment_judged (string_bytes name.now.text)
        name.now.at (listed (map expr_tree places.now)) (expr_tree value.now) (names_view names.now)))) }
{
    match assigned(names, name, places, value) {
        Ok(()) => Ok(()),
        Err(fault) => passed(fault, passes),
    }
}

/// The places, and what is stored there.
fn assigned(names: &Names, name: &Ident, places: &[Expr], value: &Expr) -> Result<(), KindFault>
    ensures { Checks result (broken (assignment_judged (string_bytes name.now.text) name.now.at
        (listed (map expr_tree places.now)) (expr_tree value.now) (names_view names.now))) }
{
    let places = kinds(names, places)?;
    let k = assigned_kind(names, name.text.as_str(), &places, name.at)?;
    stored(names, &k, value)
}

/// That what is assigned isn't a constant.
#[tactic(auto, using(crate::proofs::Said::assigned_checked))]
fn may_be_assigned(names: &Names, name: &str, at: u32, passes: bool) -> Result<(), KindFault>
    ensures { Checks result (said passes
        (may_be_assigned (meant_by name.now (names_view names.now)) at)) }
{
    changes(names, name, at)
}

/// The same.
fn changes(names: &Names, name: &str, at: u32) -> Result<(), KindFault>
    ensures { Checks result (may_be_assigned (meant_by name.now (names_view names.now)) at) }
{
    match names.meant(name) {
        Some(meant) => {
            if meant.changes {
                return Ok(());
            }
            Err(KindFault::Broken {
                rule: Rule::CONSTANT_ASSIGNED,
                at,
            })
        }
        None => Ok(()),
    }
}

/// The kinds of expressions in order.
///
/// # Errors
///
/// `Broken`: the first rule that one of them breaks. `Memory` if memory runs out.
pub fn kinds(names: &Names, exprs: &[Expr]) -> Result<Vec<Kind>, KindFault>
    ensures { Judges (λ found. map kind_view found.items) result
        (kinds (listed (map expr_tree exprs.now)) (names_view names.now)) }
{
    let mut found = Vec::new(names.alloc);
    let mut rest = exprs;
    'exprs: while let Some((first, others)) = rest.split_first() {
        found.push(kind(names, first)?)?;
        rest = others;
    }
    Ok(found)
}

/// The kind of what stands at places in what a name means.
fn assigned_kind(names: &Names, name: &str, places: &[Kind], at: u32) -> Result<Kind, KindFault>
    ensures { Judges kind_view result (assigned_kind (meant_by name.now (names_view names.now))
        (map kind_view places.now) at) }
{
    match names.meant(name) {
        Some(meant) => kind_at_places(meant.copied(names.alloc)?, places, at),
        None => Err(KindFault::Broken {
            rule: Rule::UNKNOWN_NAME,
            at,
        }),
    }
}

/// The kind of what stands at places in what is of a kind.
fn kind_at_places(whole: Kind, places: &[Kind], at: u32) -> Result<Kind, KindFault>
    ensures { Judges kind_view result
        (kind_at_places (kind_view whole) (map kind_view places.now) at) }
{
    let mut k = whole;
    let mut rest = places;
    'places: while let Some((first, others)) = rest.split_first() {
        k = item_kind(k, first, at)?;
        rest = others;
    }
    Ok(k)
}
