//! Comparisons of an expression with a number, and which of them no number meets both.

ghost use Rattle.std.specs.Prelude.{◌≡◌, ◌+◌, ◌+ℤ◌, int_lt, nat_lt, option_map, pos};
ghost use Rattle.std.specs.Ordering.{int_eq};
ghost use Rattle.cal_ast.specs.Tree as tree;
ghost use Rattle.cal_ast.specs.View.{expr_tree};
ghost use Rattle.cal_model.specs.Certified.{literal};
ghost use Rattle.determinacy_cert.specs.Deciding.{compared, compared_by, fails, never_above, never_below, never_besides, never_both, never_from, never_up_to};
ghost use Rattle.determinacy_cert.specs.Viewing.{comparison_view, literal_view};

use cal_ast::{BinOp, Expr, ExprForm, PrefixOp};

/// A literal with or without a `-`.
#[derive(Clone, Copy)]
pub(crate) struct Literal {
    pub is_negated: bool,
    pub size: u128,
}

/// A comparison of an expression with a literal.
#[derive(Clone, Copy)]
pub(crate) struct Comparison<'a> {
    pub left: &'a Expr,
    pub op: BinOp,
    pub number: Literal,
}

/// The comparison that an expression is, if it is one of something with a literal.
pub(crate) fn compared(e: &Expr) -> Option<Comparison<'_>>
    ensures { option_map comparison_view result ≡ compared (expr_tree e.now) }
{
    match &e.form {
        ExprForm::Binary { op, left, right } => compared_by(*op, left, number_in(right)),
        _ => None,
    }
}

/// The comparison by an operator, if it compares and its right side is a literal.
fn compared_by<'a>(op: BinOp, left: &'a Expr, number: Option<Literal>) -> Option<Comparison<'a>>
    ensures { option_map comparison_view result
        ≡ compared_by op (expr_tree left.now) (option_map literal_view number) }
{
    let Some(number) = number else { return None };
    match op {
        BinOp::Eq | BinOp::Ne | BinOp::Lt | BinOp::Le | BinOp::Gt | BinOp::Ge => {
            Some(Comparison { left, op, number })
        }
        _ => None,
    }
}

/// The literal that an expression is, if it is one.
fn number_in(e: &Expr) -> Option<Literal>
    ensures { option_map literal_view result ≡ literal (expr_tree e.now) }
{
    match &e.form {
        ExprForm::Number(size) => Some(Literal {
            is_negated: false,
            size: *size,
        }),
        ExprForm::Prefix { op, of } => signed(*op, of),
        _ => None,
    }
}

/// The literal behind a `-`, if it is one.
fn signed(op: PrefixOp, e: &Expr) -> Option<Literal>
    ensures { option_map literal_view result ≡ literal (tree.prefix op (expr_tree e.now) 0) }
{
    match op {
        PrefixOp::Neg => match &e.form {
            ExprForm::Number(size) => Some(Literal {
                is_negated: true,
                size: *size,
            }),
            _ => None,
        },
        PrefixOp::Not => None,
        PrefixOp::BitNot => None,
    }
}

/// Whether the one is below the other.
fn is_below(one: Literal, other: Literal) -> bool
    ensures { result ≡ int_lt (literal_view one) (literal_view other) }
{
    match one.is_negated {
        true => match other.is_negated {
            true => other.size < one.size,
            false => is_sum_above(one.size, other.size, 0),
        },
        false => match other.is_negated {
            true => false,
            false => one.size < other.size,
        },
    }
}

/// Whether the sum of both sizes is above a bound.
fn is_sum_above(size: u128, other: u128, bound: u128) -> bool
    ensures { result ≡ nat_lt bound (size + other) }
{
    if bound < size {
        true
    } else {
        bound - size < other
    }
}

/// Whether the one size is more than 1 below the other.
fn is_far_below(size: u128, other: u128) -> bool
    ensures { result ≡ nat_lt (size + 1) other }
{
    if size < other {
        1 < other - size
    } else {
        false
    }
}

/// Whether a number lies between the one and the other, which is above it.
fn has_between(one: Literal, other: Literal) -> bool
    ensures { result ≡ int_lt (literal_view one +ℤ pos 1) (literal_view other) }
{
    match one.is_negated {
        true => match other.is_negated {
            true => is_far_below(other.size, one.size),
            false => is_sum_above(one.size, other.size, 1),
        },
        false => match other.is_negated {
            true => false,
            false => is_far_below(one.size, other.size),
        },
    }
}

/// Whether the one is the other.
fn is_equal(one: Literal, other: Literal) -> bool
    ensures { result ≡ int_eq (literal_view one) (literal_view other) }
{
    match one.is_negated {
        true => match other.is_negated {
            true => one.size == other.size,
            false => !is_sum_above(one.size, other.size, 0),
        },
        false => match other.is_negated {
            true => !is_sum_above(one.size, other.size, 0),
            false => one.size == other.size,
        },
    }
}

/// Whether no whole number meets both comparisons.
pub(crate) fn never_both(op: BinOp, n: Literal, other: BinOp, m: Literal) -> bool
    ensures { result ≡ never_both op (literal_view n) other (literal_view m) }
{
    match op {
        BinOp::Eq => fails(other, n, m),
        BinOp::Ne => never_besides(n, other, m),
        BinOp::Lt => never_below(n, other, m),
        BinOp::Le => never_up_to(n, other, m),
        BinOp::Gt => never_above(n, other, m),
        BinOp::Ge => never_from(n, other, m),
        _ => false,
    }
}

/// Whether the number doesn't meet the comparison.
fn fails(op: BinOp, number: Literal, n: Literal) -> bool
    ensures { result ≡ fails op (literal_view number) (literal_view n) }
{
    match op {
        BinOp::Eq => !is_equal(number, n),
        BinOp::Ne => is_equal(number, n),
        BinOp::Lt => !is_below(number, n),
        BinOp::Le => is_below(n, number),
        BinOp::Gt => !is_below(n, number),
        BinOp::Ge => is_below(number, n),
        _ => true,
    }
}

/// Whether no number other than `n` meets the comparison.
fn never_besides(n: Literal, op: BinOp, m: Literal) -> bool
    ensures { result ≡ never_besides (literal_view n) op (literal_view m) }
{
    match op {
        BinOp::Eq => is_equal(n, m),
        _ => false,
    }
}

/// Whether no number below `n` meets the comparison.
fn never_below(n: Literal, op: BinOp, m: Literal) -> bool
    ensures { result ≡ never_below (literal_view n) op (literal_view m) }
{
    match op {
        BinOp::Eq => !is_below(m, n),
        BinOp::Gt => !has_between(m, n),
        BinOp::Ge => !is_below(m, n),
        _ => false,
    }
}

/// Whether no number up to `n` meets the comparison.
fn never_up_to(n: Literal, op: BinOp, m: Literal) -> bool
    ensures { result ≡ never_up_to (literal_view n) op (literal_view m) }
{
    match op {
        BinOp::Eq => is_below(n, m),
        BinOp::Gt => !is_below(m, n),
        BinOp::Ge => is_below(n, m),
        _ => false,
    }
}

/// Whether no number above `n` meets the comparison.
fn never_above(n: Literal, op: BinOp, m: Literal) -> bool
    ensures { result ≡ never_above (literal_view n) op (literal_view m) }
{
    match op {
        BinOp::Eq => !is_below(n, m),
        BinOp::Lt => !has_between(n, m),
        BinOp::Le => !is_below(n, m),
        _ => false,
    }
}

/// Whether no number from `n` on meets the comparison.
fn never_from(n: Literal, op: BinOp, m: Literal) -> bool
    ensures { result ≡ never_from (literal_view n) op (literal_view m) }
{
    match op {
        BinOp::Eq => is_below(m, n),
        BinOp::Lt => !is_below(n, m),
        BinOp::Le => is_below(m, n),
        _ => false,
    }
}
