//! Expressions that are seen to give truth values.
//!
//! A call gives a value of its function's type only if its arguments are single values, so these are told too.

ghost use Rattle.std.specs.Prelude.{◌≡◌, ◌∷◌};
ghost use Rattle.cal_ast.specs.Tree as tree;
ghost use Rattle.cal_ast.specs.View.{expr_tree};
ghost use Rattle.cal_model.specs.View.{shape_view};
ghost use Rattle.lower_base.specs.Names.{shape_named};
ghost use Rattle.lower_base.specs.PartView.{places_of};
ghost use Rattle.lower_base.specs.Seen.{called, seen};
ghost use Rattle.lower_base.specs.Truths.{all_give, gives_at, is_of_sort, is_truth, is_truth_binary};
ghost use Rattle.lower_base.specs.Truths.{name_gives, shape_gives};
ghost use Rattle.lower_base.specs.Words.{binary_of, call_of};
ghost use Rattle.expr_lower.specs.CounterView.{counter_view, gens_of};
ghost use Rattle.expr_lower.specs.FillWords.{comp_of, list_of};
ghost use Rattle.expr_lower.specs.Indexing.{number_of};
ghost use Rattle.expr_lower.specs.Telling.{both_single, behind_counter, of_elements};

use crate::generators::{Counter, counted_by, makes_none};
use crate::indexes::{Indexes, is_none};
use cal_ast::{BinOp, Expr, ExprForm, Gen, PrefixOp};
use cal_model::Shape;
use lower_base::{Frame, Scope, Sort, function_for, shape_called};
use rvc_base::Scalar;

/// Whether what an expression gives, if it gives anything, is seen to be a truth value.
pub(crate) fn is_truth(scope: &Scope, e: &Expr) -> bool
    ensures { result ≡ is_truth (called scope.now) (seen scope.now) (expr_tree e.now) }
{
    gives(scope, e, &Indexes::None, Sort::Truths)
}

/// Whether what an expression gives is seen to be of a sort, once so many indexes are put on it.
#[cycle(gives)]
fn gives(scope: &Scope, e: &Expr, depth: &Indexes, sort: Sort) -> bool
    ensures { result ≡ gives_at sort (number_of depth.now) (called scope.now) (seen scope.now) (expr_tree e.now) }
{
    match &e.form {
        ExprForm::Number(_) => is_none(depth) && sort == Sort::Any,
        ExprForm::Bool(_) => is_none(depth),
        ExprForm::Name(text) => name_gives(scope, text.as_str(), depth, sort),
        ExprForm::Paren(inner) => gives(scope, inner, depth, sort),
        ExprForm::If { test: _, yes, no } => {
            gives(scope, yes, depth, sort) && gives(scope, no, depth, sort)
        }
        ExprForm::Prefix { op, of } => prefix_gives(scope, *op, of, depth, sort),
        ExprForm::Binary { op, left, right } => {
            binary_gives(scope, *op, left, right, depth, sort)
        }
        ExprForm::Call { name, args } => call_gives(scope, name.as_str(), args, depth, sort),
        ExprForm::List(items) => list_gives(scope, items, depth, sort),
        ExprForm::Comp { item, gens } => comp_gives(scope, item, gens, depth, sort),
        ExprForm::Index { base, place: _ } => item_gives(scope, base, &*depth, sort),
    }
}

/// Whether each of some expressions is seen to give such values.
#[cycle(gives)]
fn all_give(scope: &Scope, items: &[Expr], depth: &Indexes, sort: Sort) -> bool
    ensures { result ≡ all_give sort (number_of depth.now) (called scope.now) (seen scope.now) (places_of items.now) }
{
    let Some((first, rest)) = items.split_first() else {
        return true;
    };
    gives(scope, first, depth, sort) && all_give(scope, rest, depth, sort)
}

/// Whether a name is that of such values.
fn name_gives(scope: &Scope, text: &str, depth: &Indexes, sort: Sort) -> bool
    ensures { result ≡ name_gives sort (number_of depth.now) (shape_named (seen scope.now) text.now) }
{
    match shape_called(scope, text) {
        Some(shape) => shape_gives(shape, depth, sort),
        None => false,
    }
}

/// Whether so many indexes choose values of a sort of a type.
fn shape_gives(shape: &Shape, depth: &Indexes, sort: Sort) -> bool
    ensures { result ≡ shape_gives sort (number_of depth.now) (shape_view shape.now) }
{
    match shape {
        Shape::Scalar(kind) => is_none(depth) && is_of_sort(*kind, sort),
        Shape::List(_, items) => match depth {
            Indexes::None => false,
            Indexes::OneMore(less) => shape_gives(items, *less, sort),
        },
    }
}

/// Whether the values of a type are of a sort.
fn is_of_sort(kind: Scalar, sort: Sort) -> bool
    ensures { result ≡ is_of_sort sort kind }
{
    match sort {
        Sort::Any => true,
        Sort::Truths => matches!(kind, Scalar::Bool),
    }
}

/// Whether an operator before an operand gives such values.
#[cycle(gives)]
fn prefix_gives(scope: &Scope, op: PrefixOp, of: &Expr, depth: &Indexes, sort: Sort) -> bool
    ensures { result ≡ gives_at sort (number_of depth.now) (called scope.now) (seen scope.now)
        (tree.prefix op (expr_tree of.now) 0) }
{
    match sort {
        Sort::Any => is_none(depth) && gives(scope, of, &Indexes::None, Sort::Any),
        Sort::Truths => is_none(depth) && op == PrefixOp::Not,
    }
}

/// Whether an operator between two operands gives such values.
#[cycle(gives)]
fn binary_gives(
    scope: &Scope,
    op: BinOp,
    left: &Expr,
    right: &Expr,
    depth: &Indexes,
    sort: Sort,
) -> bool
    ensures { result ≡ gives_at sort (number_of depth.now) (called scope.now) (seen scope.now)
        (binary_of op left.now right.now 0) }
{
    if !is_none(depth) {
        return false;
    }
    match sort {
        Sort::Any => is_truth_binary(op) || both_give(scope, left, right),
        Sort::Truths => is_truth_binary(op),
    }
}

/// Whether two expressions are seen to give single values.
#[cycle(gives)]
fn both_give(scope: &Scope, left: &Expr, right: &Expr) -> bool
    ensures { result ≡ both_single (called scope.now) (seen scope.now)
        (expr_tree left.now) (expr_tree right.now) }
{
    gives(scope, left, &Indexes::None, Sort::Any) && gives(scope, right, &Indexes::None, Sort::Any)
}

/// Whether an operator gives truth values.
fn is_truth_binary(op: BinOp) -> bool
    ensures { result ≡ is_truth_binary op }
{
    matches!(
        op,
        BinOp::Or
            | BinOp::And
            | BinOp::Eq
            | BinOp::Ne
            | BinOp::Lt
            | BinOp::Le
            | BinOp::Gt
            | BinOp::Ge
    )
}

/// Whether a call gives such values: its function is one of a type of them, and its arguments are single values.
#[cycle(gives)]
fn call_gives(scope: &Scope, name: &str, args: &[Expr], depth: &Indexes, sort: Sort) -> bool
    ensures { result ≡ gives_at sort (number_of depth.now) (called scope.now) (seen scope.now)
        (call_of name.now args.now 0) }
{
    if !is_none(depth) {
        return false;
    }
    let Some(callee) = function_for(scope.callees, name, args) else {
        return false;
    };
    is_of_sort(callee.result, sort) && all_give(scope, args, &Indexes::None, Sort::Any)
}

/// Whether each item of a list that is written out gives such values, with one index less put on it.
#[cycle(gives)]
fn list_gives(scope: &Scope, items: &[Expr], depth: &Indexes, sort: Sort) -> bool
    ensures { result ≡ gives_at sort (number_of depth.now) (called scope.now) (seen scope.now) (list_of items.now 0) }
{
    match depth {
        Indexes::None => false,
        Indexes::OneMore(less) => all_give(scope, items, *less, sort),
    }
}

/// Whether the elements that generators make are such values, with one index less put on them.
#[cycle(gives)]
fn comp_gives(scope: &Scope, item: &Expr, gens: &[Gen], depth: &Indexes, sort: Sort) -> bool
    ensures { result ≡ gives_at sort (number_of depth.now) (called scope.now) (seen scope.now)
        (comp_of item.now gens.now 0) }
{
    match depth {
        Indexes::None => false,
        Indexes::OneMore(less) => makes_none(gens) || under_gens(scope, item, gens, *less, sort),
    }
}

/// Whether an element is such a value, which sees the variables of generators.
#[cycle(gives)]
fn under_gens(scope: &Scope, item: &Expr, gens: &[Gen], depth: &Indexes, sort: Sort) -> bool
    ensures { result ≡ of_elements sort (number_of depth.now) (called scope.now) (seen scope.now)
        (gens_of gens.now) (expr_tree item.now) }
{
    match gens.split_first() {
        Some((first, rest)) => under_gen(scope, item, first, rest, depth, sort),
        None => gives(scope, item, depth, sort),
    }
}

/// .. and first that of this one, if it counts.
#[cycle(gives)]
fn under_gen(
    scope: &Scope,
    item: &Expr,
    first: &Gen,
    rest: &[Gen],
    depth: &Indexes,
    sort: Sort,
) -> bool
    ensures { result ≡ of_elements sort (number_of depth.now) (called scope.now) (seen scope.now)
        (gens_of (first.now ∷ rest.now)) (expr_tree item.now) }
{
    match counted_by(first) {
        Some(x) => under_counter(scope, item, x, rest, depth, sort),
        None => false,
    }
}

/// .. which is seen by those behind it.
#[cycle(gives)]
fn under_counter(
    scope: &Scope,
    item: &Expr,
    x: Counter,
    rest: &[Gen],
    depth: &Indexes,
    sort: Sort,
) -> bool
    ensures { result ≡ behind_counter sort (number_of depth.now) (called scope.now) (seen scope.now)
        (counter_view x.entry) (gens_of rest.now) (expr_tree item.now) }
{
    let shape = Shape::Scalar(x.kind);
    let frame = Frame {
        name: x.name,
        shape: &shape,
        cell: 0,
        outer: scope.frame,
    };
    let inner = scope.under(&frame);
    under_gens(&inner, item, rest, depth, sort)
}

/// Whether the items of a list are such values, with one index more put on the list.
#[cycle(gives)]
fn item_gives<'d>(scope: &Scope, base: &Expr, depth: &'d Indexes<'d>, sort: Sort) -> bool
    ensures { result ≡ gives_at sort (number_of depth.entry.now) (called scope.now) (seen scope.now)
        (tree.index (expr_tree base.now) tree.nil 0) }
{
    let more = Indexes::OneMore(depth);
    gives(scope, base, &more, sort)
}
