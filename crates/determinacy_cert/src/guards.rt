//! The guards of an action by themselves.

ghost use Rattle.std.specs.Prelude.{◌≡◌, map};
ghost use Rattle.cal_ast.specs.Tree.{listed};
ghost use Rattle.cal_ast.specs.View.{expr_tree};
ghost use Rattle.cal_model.specs.View.{action_view, actor_of};
ghost use Rattle.determinacy_cert.specs.Deciding.{are_bare, have_ranges, is_bare};
ghost use Rattle.determinacy_cert.specs.Failing.{guards_judged};
ghost use Rattle.determinacy_cert.specs.Viewing.{names_view};

use crate::fault::Reason;
use crate::found::Names;
use crate::range::range;
use cal_ast::{Expr, ExprForm};

/// Why the guards of an action are refused by themselves: they hold a call or a comprehension, or may trap.
pub(crate) fn guards_judged(names: Names<'_>) -> Option<Reason>
    ensures { result ≡ guards_judged (actor_of names.entry.actor.now)
        (action_view names.entry.action.now) }
{
    if !are_bare(&names.action.guards) {
        return Some(Reason::C3);
    }
    if !have_ranges(&names.action.guards, names) {
        return Some(Reason::C4);
    }
    None
}

/// Whether all of these expressions have ranges.
fn have_ranges(guards: &[Expr], names: Names<'_>) -> bool
    ensures { result ≡ have_ranges (names_view names.entry) (map expr_tree guards.now) }
{
    for guard in guards {
        if range(guard, names).is_none() {
            return false;
        }
    }
    true
}

/// Whether no expression holds a call or a comprehension.
fn are_bare(guards: &[Expr]) -> bool
    ensures { result ≡ are_bare (map expr_tree guards.now) }
{
    for guard in guards {
        if !is_bare(guard) {
            return false;
        }
    }
    true
}

/// Whether the expression holds no call and no comprehension.
#[cycle(is_bare)]
fn is_bare(e: &Expr) -> bool
    ensures { result ≡ is_bare (expr_tree e.now) }
{
    match &e.form {
        ExprForm::Call { name: _, args: _ } => false,
        ExprForm::Comp { item: _, gens: _ } => false,
        ExprForm::Number(_) => true,
        ExprForm::Bool(_) => true,
        ExprForm::Name(_) => true,
        ExprForm::Paren(inner) => is_bare(inner),
        ExprForm::If { test, yes, no } => is_bare(test) && is_bare(yes) && is_bare(no),
        ExprForm::List(items) => all_bare(items),
        ExprForm::Index { base, place } => is_bare(base) && is_bare(place),
        ExprForm::Prefix { op: _, of } => is_bare(of),
        ExprForm::Binary { op: _, left, right } => is_bare(left) && is_bare(right),
    }
}

/// Whether no item of a list holds a call or a comprehension.
#[cycle(is_bare)]
fn all_bare(items: &[Expr]) -> bool
    ensures { result ≡ is_bare (listed (map expr_tree items.now)) }
{
    for item in items {
        if !is_bare(item) {
            return false;
        }
    }
    true
}
