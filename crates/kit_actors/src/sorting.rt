//! What a guard of an example is: a number, a truth value, or nothing that such a guard may be.

ghost use Rattle.std.specs.Prelude.{◌≡◌, map};
ghost use Rattle.cal_ast.specs.Tree.{listed};
ghost use Rattle.cal_ast.specs.View.{expr_tree};
ghost use Rattle.kit_actors.specs.Sorts.{alike, both, branches, called, is_list, is_nil, item, named, of_numbers, of_truths, prefixed, sort, token};

use crate::guarded::Takes;
use cal_ast::{BinOp, Expr, ExprForm, PrefixOp};

/// What an expression is.
#[derive(Clone, Copy, Debug, PartialEq, Eq)]
pub enum Sort {
    Number,
    Truth,
    /// Ill-formed, or of a form that examples don't use.
    Unfit,
}

/// What an expression is in a guard of an action that takes this.
#[cycle(sort_of)]
pub fn sort_of(e: &Expr, takes: Takes) -> Sort
    ensures { result ≡ sort (expr_tree e.now) takes }
{
    match &e.form {
        ExprForm::Number(_) => Sort::Number,
        ExprForm::Bool(_) => Sort::Truth,
        ExprForm::Name(name) => named(name.as_str(), takes),
        ExprForm::Paren(inner) => sort_of(inner, takes),
        ExprForm::If { test, yes, no } => {
            branches(
                sort_of(test, takes),
                sort_of(yes, takes),
                sort_of(no, takes),
            )
        }
        ExprForm::Index { base, place } => item(is_list(base, takes), sort_of(place, takes)),
        ExprForm::Prefix { op, of } => prefixed(*op, sort_of(of, takes)),
        ExprForm::Binary { op, left, right } => both(
            *op,
            sort_of(left, takes),
            sort_of(right, takes),
        ),
        ExprForm::Call { name, args } => called(name.as_str(), are_none(args)),
        ExprForm::List(_) => Sort::Unfit,
        ExprForm::Comp { item: _, gens: _ } => Sort::Unfit,
    }
}

/// What a name is: the variable `s`, or a token.
fn named(name: &str, takes: Takes) -> Sort
    ensures { result ≡ named name.now takes }
{
    if name == "s" {
        return Sort::Number;
    }
    match takes {
        Takes::One | Takes::Other => token(name == "v"),
        Takes::Two => token(name == "v" || name == "d"),
        Takes::Four => Sort::Unfit,
    }
}

fn token(is_one: bool) -> Sort
    ensures { result ≡ token is_one }
{
    if is_one { Sort::Number } else { Sort::Unfit }
}

/// Whether an expression is the list of four tokens.
fn is_list(e: &Expr, takes: Takes) -> bool
    ensures { result ≡ is_list (expr_tree e.now) takes }
{
    match &e.form {
        ExprForm::Name(name) => match takes {
            Takes::Four => name.as_str() == "t",
            _ => false,
        },
        _ => false,
    }
}

/// What stands in the list at a place of this sort.
fn item(is_list: bool, place: Sort) -> Sort
    ensures { result ≡ item is_list place }
{
    match place {
        Sort::Number => token(is_list),
        _ => Sort::Unfit,
    }
}

/// Whether there is no argument.
fn are_none(args: &[Expr]) -> bool
    ensures { result ≡ is_nil (listed (map expr_tree args.now)) }
{
    let Some(_) = args.first() else { return true };
    false
}

/// What a call is: `f()` is a truth value.
fn called(name: &str, bare: bool) -> Sort
    ensures { result ≡ called name.now bare }
{
    if name == "f" && bare {
        Sort::Truth
    } else {
        Sort::Unfit
    }
}

fn branches(test: Sort, yes: Sort, no: Sort) -> Sort
    ensures { result ≡ branches test yes no }
{
    match test {
        Sort::Truth => alike(yes, no),
        _ => Sort::Unfit,
    }
}

/// What both are, if they are alike.
fn alike(one: Sort, two: Sort) -> Sort
    ensures { result ≡ alike one two }
{
    match one {
        Sort::Number => match two {
            Sort::Number => Sort::Number,
            _ => Sort::Unfit,
        },
        Sort::Truth => match two {
            Sort::Truth => Sort::Truth,
            _ => Sort::Unfit,
        },
        Sort::Unfit => Sort::Unfit,
    }
}

fn prefixed(op: PrefixOp, of: Sort) -> Sort
    ensures { result ≡ prefixed op of }
{
    match op {
        PrefixOp::Not => alike(Sort::Truth, of),
        PrefixOp::Neg | PrefixOp::BitNot => alike(Sort::Number, of),
    }
}

fn both(op: BinOp, one: Sort, two: Sort) -> Sort
    ensures { result ≡ both op one two }
{
    match alike(one, two) {
        Sort::Number => of_numbers(op),
        Sort::Truth => of_truths(op),
        Sort::Unfit => Sort::Unfit,
    }
}

fn of_numbers(op: BinOp) -> Sort
    ensures { result ≡ of_numbers op }
{
    match op {
        BinOp::And | BinOp::Or => Sort::Unfit,
        BinOp::Eq | BinOp::Ne | BinOp::Lt | BinOp::Le | BinOp::Gt | BinOp::Ge => Sort::Truth,
        _ => Sort::Number,
    }
}

fn of_truths(op: BinOp) -> Sort
    ensures { result ≡ of_truths op }
{
    match op {
        BinOp::And | BinOp::Or | BinOp::Eq | BinOp::Ne => Sort::Truth,
        _ => Sort::Unfit,
    }
}
