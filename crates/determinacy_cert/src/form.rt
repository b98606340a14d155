//! Expressions by their outermost form, and equality of trees.

ghost use Rattle.std.specs.Prelude.{◌≡◌, ◌==◌, []};
ghost use Rattle.cal_ast.specs.Tree as tree;
ghost use Rattle.cal_ast.specs.View.{expr_tree};
ghost use Rattle.determinacy_cert.specs.Deciding.{op_number, prefix_number, same};
ghost use Rattle.determinacy_cert.specs.Viewing.{binary_tree, if_tree, index_tree, is_same};

use crate::key::same_names;
use cal_ast::{BinOp, Expr, ExprForm, PrefixOp};
use cal_model::BoundPattern;

/// Whether both trees are equal, ignoring offsets, once each pattern variable is replaced by the tokens that it stands
/// for. Lists, calls and comprehensions count as different. The recursion goes down the first tree.
#[cycle(same)]
pub(crate) fn same(f: &Expr, others: &[BoundPattern], e: &Expr, patterns: &[BoundPattern]) -> bool
    ensures { result ≡ is_same (expr_tree e.now) patterns.now f.now others.now }
{
    match &e.form {
        ExprForm::Number(number) => is_number(*number, f),
        ExprForm::Bool(flag) => is_truth(*flag, f),
        ExprForm::Name(name) => is_name(name.as_str(), patterns, f, others),
        ExprForm::Paren(inner) => same_paren(f, others, inner, patterns),
        ExprForm::If { test, yes, no } => same_if(f, others, test, yes, no, patterns),
        ExprForm::Index { base, place } => same_index(f, others, base, place, patterns),
        ExprForm::Prefix { op, of } => same_prefix(f, others, *op, of, patterns),
        ExprForm::Binary { op, left, right } => same_binary(f, others, *op, left, right, patterns),
        ExprForm::Call { name: _, args: _ } => false,
        ExprForm::List(_) => false,
        ExprForm::Comp { item: _, gens: _ } => false,
    }
}

/// Whether the expression is this number.
fn is_number(number: u128, f: &Expr) -> bool
    ensures { result ≡ same (tree.number number 0) [] (expr_tree f.now) [] }
{
    match &f.form {
        ExprForm::Number(other) => number == *other,
        _ => false,
    }
}

/// Whether the expression is this truth value.
fn is_truth(flag: bool, f: &Expr) -> bool
    ensures { result ≡ same (tree.truth flag 0) [] (expr_tree f.now) [] }
{
    match &f.form {
        ExprForm::Bool(other) => flag == *other,
        _ => false,
    }
}

/// Whether the expression is a name that stands for the same.
fn is_name(name: &str, patterns: &[BoundPattern], f: &Expr, others: &[BoundPattern]) -> bool
    ensures { result ≡ is_same (tree.variable name.now 0) patterns.now f.now others.now }
{
    match &f.form {
        ExprForm::Name(other) => same_names(name, patterns, other.as_str(), others),
        _ => false,
    }
}

/// Whether the other expression has parentheses round an equal one.
#[cycle(same)]
fn same_paren(f: &Expr, others: &[BoundPattern], inner: &Expr, patterns: &[BoundPattern]) -> bool
    ensures { result ≡ is_same (tree.paren (expr_tree inner.now) 0) patterns.now f.now others.now }
{
    match &f.form {
        ExprForm::Paren(other) => same(other, others, inner, patterns),
        _ => false,
    }
}

/// Whether the other expression is an `if` with an equal condition and equal branches.
#[cycle(same)]
fn same_if(
    f: &Expr,
    others: &[BoundPattern],
    test: &Expr,
    yes: &Expr,
    no: &Expr,
    patterns: &[BoundPattern],
) -> bool
    ensures { result ≡ is_same (if_tree test.now yes.now no.now) patterns.now f.now others.now }
{
    match &f.form {
        ExprForm::If {
            test: other_test,
            yes: other_yes,
            no: other_no,
        } => {
            same(other_test, others, test, patterns)
                && same(other_yes, others, yes, patterns)
                && same(other_no, others, no, patterns)
        }
        _ => false,
    }
}

/// Whether the other expression is an index with an equal base and an equal place.
#[cycle(same)]
fn same_index(
    f: &Expr,
    others: &[BoundPattern],
    base: &Expr,
    place: &Expr,
    patterns: &[BoundPattern],
) -> bool
    ensures { result ≡ is_same (index_tree base.now place.now) patterns.now f.now others.now }
{
    match &f.form {
        ExprForm::Index {
            base: other_base,
            place: other_place,
        } => {
            same(other_base, others, base, patterns) && same(other_place, others, place, patterns)
        }
        _ => false,
    }
}

/// Whether the other expression is the same operation on an equal operand.
#[cycle(same)]
fn same_prefix(
    f: &Expr,
    others: &[BoundPattern],
    op: PrefixOp,
    of: &Expr,
    patterns: &[BoundPattern],
) -> bool
    ensures { result ≡ is_same (tree.prefix op (expr_tree of.now) 0) patterns.now f.now others.now }
{
    match &f.form {
        ExprForm::Prefix {
            op: other_op,
            of: other,
        } => same_prefix_op(op, *other_op) && same(other, others, of, patterns),
        _ => false,
    }
}

/// Whether the other expression is the same operation on equal operands.
#[cycle(same)]
fn same_binary(
    f: &Expr,
    others: &[BoundPattern],
    op: BinOp,
    left: &Expr,
    right: &Expr,
    patterns: &[BoundPattern],
) -> bool
    ensures { result ≡ is_same (binary_tree op left.now right.now) patterns.now f.now others.now }
{
    match &f.form {
        ExprForm::Binary {
            op: other_op,
            left: other_left,
            right: other_right,
        } => {
            same_op(op, *other_op)
                && same(other_left, others, left, patterns)
                && same(other_right, others, right, patterns)
        }
        _ => false,
    }
}

/// Whether both operators are the same.
fn same_prefix_op(op: PrefixOp, other: PrefixOp) -> bool
    ensures { result ≡ (prefix_number op == prefix_number other) }
{
    op == other
}

/// Whether both operators are the same.
fn same_op(op: BinOp, other: BinOp) -> bool
    ensures { result ≡ (op_number op == op_number other) }
{
    op == other
}
