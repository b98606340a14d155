//! The range of an expression: an interval that holds what it gives, if it can't trap.

ghost use Rattle.std.specs.Prelude.{◌≡◌, option_map};
ghost use Rattle.cal_ast.specs.Tree as tree;
ghost use Rattle.cal_ast.specs.View.{expr_tree};
ghost use Rattle.cal_model.specs.Certified.{indexed, on_interval, range, range_of_prefix};
ghost use Rattle.determinacy_cert.specs.Deciding.{item_at, range_of_if, range_of_item, range_of_operands};
ghost use Rattle.determinacy_cert.specs.Viewing.{found_if, interval_if, names_view, unnamed};

use crate::found::{Found, Names, find, item, numbers_of};
use crate::interval::{Interval, hull, literal, of_both, of_prefix, truth};
use cal_ast::{BinOp, Expr, ExprForm, PrefixOp};

/// The range of an expression. None where it may trap, judged by the types and constants that it names.
#[cycle(range)]
pub(crate) fn range(e: &Expr, names: Names<'_>) -> Option<Interval>
    ensures { interval_if result ≡ range (expr_tree e.now) (names_view names.entry) }
{
    match &e.form {
        ExprForm::Number(number) => literal(*number),
        ExprForm::Bool(flag) => Some(truth(*flag)),
        ExprForm::Name(name) => of_name(name.as_str(), names),
        ExprForm::Paren(inner) => range(inner, names),
        ExprForm::If { test, yes, no } => {
            of_if(range(test, names), range(yes, names), range(no, names))
        }
        ExprForm::Index { base, place } => of_index(indexed(base, names), range(place, names)),
        ExprForm::Prefix { op, of } => of_prefixed(*op, range(of, names)),
        ExprForm::Binary { op, left, right } => {
            of_binary(*op, range(left, names), range(right, names))
        }
        ExprForm::Call { name: _, args: _ } => None,
        ExprForm::List(_) => None,
        ExprForm::Comp { item: _, gens: _ } => None,
    }
}

/// A name or an index on a name, as what is indexed.
#[cycle(range)]
fn indexed<'a>(e: &Expr, names: Names<'a>) -> Option<Found<'a>>
    ensures { found_if result
        ≡ option_map unnamed (indexed (expr_tree e.now) (names_view names.entry)) }
{
    match &e.form {
        ExprForm::Name(name) => find(name.as_str(), names),
        ExprForm::Index { base, place } => item_of(indexed(base, names), range(place, names)),
        _ => None,
    }
}

/// The range of a name.
fn of_name(name: &str, names: Names<'_>) -> Option<Interval>
    ensures { interval_if result
        ≡ range (tree.variable name.now 0) (names_view names.entry) }
{
    match find(name, names) {
        Some(found) => numbers_of(found),
        None => None,
    }
}

/// The hull of both branches, if the condition has a range too.
fn of_if(test: Option<Interval>, yes: Option<Interval>, no: Option<Interval>) -> Option<Interval>
    ensures { interval_if result
        ≡ range_of_if (interval_if test) (interval_if yes) (interval_if no) }
{
    let Some(_) = test else { return None };
    let Some(i) = yes else { return None };
    let Some(j) = no else { return None };
    Some(hull(i, j))
}

/// The range of what stands in a list, if the place is within it.
fn of_index(list: Option<Found<'_>>, place: Option<Interval>) -> Option<Interval>
    ensures { interval_if result
        ≡ range_of_item (found_if list.entry) (interval_if place) }
{
    match item_of(list, place) {
        Some(found) => numbers_of(found),
        None => None,
    }
}

/// What stands in a list, if the place is within it.
fn item_of<'a>(list: Option<Found<'a>>, place: Option<Interval>) -> Option<Found<'a>>
    ensures { found_if result
        ≡ item_at (found_if list.entry) (interval_if place) }
{
    let Some(list) = list else { return None };
    let Some(i) = place else { return None };
    item(list, i)
}

/// The range of an operation with one operand.
fn of_prefixed(op: PrefixOp, operand: Option<Interval>) -> Option<Interval>
    ensures { interval_if result
        ≡ on_interval (interval_if operand) (λ i. range_of_prefix op i) }
{
    match operand {
        Some(i) => of_prefix(op, i),
        None => None,
    }
}

/// The range of an operation with two operands.
fn of_binary(op: BinOp, left: Option<Interval>, right: Option<Interval>) -> Option<Interval>
    ensures { interval_if result
        ≡ range_of_operands op (interval_if left) (interval_if right) }
{
    let Some(i) = left else { return None };
    let Some(j) = right else { return None };
    of_both(op, i, j)
}
