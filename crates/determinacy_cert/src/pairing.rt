//! Conjuncts of guards, and which of them exclude each other.

ghost use Rattle.std.specs.Prelude.{◌≡◌};
ghost use Rattle.cal_ast.specs.View.{expr_tree};
ghost use Rattle.cal_model.specs.Certified.{conjuncts};
ghost use Rattle.cal_model.specs.View.{action_view};
ghost use Rattle.determinacy_cert.specs.Deciding.{compare_apart, denied, exclude, guards_exclude, guards_exclude_any, guards_exclude_one, is_and, is_excluded, is_not_of};
ghost use Rattle.determinacy_cert.specs.Viewing.{compared_if, seen};

use crate::comparison::{Comparison, compared, never_both};
use crate::form::same;
use cal_ast::{BinOp, Expr, ExprForm, PrefixOp};
use cal_model::{BoundAction, BoundPattern};

/// Whether a conjunct of the one's guards and one of the other's exclude each other.
pub(crate) fn guards_exclude(one: &BoundAction, two: &BoundAction) -> bool
    ensures { result ≡ guards_exclude (action_view one.now) (action_view two.now) }
{
    for guard in &one.guards {
        if excludes_any(guard, one, two) {
            return true;
        }
    }
    false
}

/// Whether a conjunct of this expression and one of the other's guards exclude each other.
#[cycle(excludes_any)]
fn excludes_any(e: &Expr, one: &BoundAction, two: &BoundAction) -> bool
    ensures { result ≡ guards_exclude_any (conjuncts (expr_tree e.now)) (action_view one.now)
        (action_view two.now) }
{
    match &e.form {
        ExprForm::Binary { op, left, right } => {
            if is_and(*op) {
                excludes_any(left, one, two) || excludes_any(right, one, two)
            } else {
                excludes_a_guard(e, one, two)
            }
        }
        _ => excludes_a_guard(e, one, two),
    }
}

/// Whether the conjunct and one of the other's guards exclude each other.
fn excludes_a_guard(e: &Expr, one: &BoundAction, two: &BoundAction) -> bool
    ensures { result ≡ guards_exclude_one (expr_tree e.now) (action_view one.now).patterns
        (action_view two.now) }
{
    for guard in &two.guards {
        if excludes(e, &one.patterns, guard, &two.patterns) {
            return true;
        }
    }
    false
}

/// Whether the conjunct and a conjunct of this expression exclude each other.
#[cycle(excludes)]
fn excludes(e: &Expr, patterns: &[BoundPattern], f: &Expr, others: &[BoundPattern]) -> bool
    ensures { result ≡ is_excluded (expr_tree e.now) (seen patterns.now)
        (conjuncts (expr_tree f.now)) (seen others.now) }
{
    match &f.form {
        ExprForm::Binary { op, left, right } => {
            if is_and(*op) {
                excludes(e, patterns, left, others) || excludes(e, patterns, right, others)
            } else {
                exclude(e, patterns, f, others)
            }
        }
        _ => exclude(e, patterns, f, others),
    }
}

/// Whether the operator stands between conjuncts.
fn is_and(op: BinOp) -> bool
    ensures { result ≡ is_and op }
{
    match op {
        BinOp::And => true,
        _ => false,
    }
}

/// Whether these conjuncts exclude each other.
fn exclude(e: &Expr, patterns: &[BoundPattern], f: &Expr, others: &[BoundPattern]) -> bool
    ensures { result ≡ exclude (expr_tree e.now) (seen patterns.now) (expr_tree f.now)
        (seen others.now) }
{
    if compare_apart(compared(e), patterns, compared(f), others) {
        return true;
    }
    if is_not_of(e, patterns, f, others) {
        return true;
    }
    is_not_of(f, others, e, patterns)
}

/// Whether both compare the same with numbers, and no whole number meets both.
fn compare_apart(
    one: Option<Comparison<'_>>,
    patterns: &[BoundPattern],
    two: Option<Comparison<'_>>,
    others: &[BoundPattern],
) -> bool
    ensures { result ≡ compare_apart (compared_if one.entry) (seen patterns.now)
        (compared_if two.entry) (seen others.now) }
{
    let Some(one) = one else { return false };
    let Some(two) = two else { return false };
    never_both(one.op, one.number, two.op, two.number) && same(two.left, others, one.left, patterns)
}

/// Whether the second is `not` the first.
fn is_not_of(e: &Expr, patterns: &[BoundPattern], f: &Expr, others: &[BoundPattern]) -> bool
    ensures { result ≡ is_not_of (expr_tree e.now) (seen patterns.now)
        (denied (expr_tree f.now)) (seen others.now) }
{
    match &f.form {
        ExprForm::Prefix {
            op: PrefixOp::Not,
            of,
        } => same(of, others, e, patterns),
        _ => false,
    }
}
