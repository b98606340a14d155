//! The operators by their text.

ghost use Rattle.std.specs.Prelude.{◌≡◌, map};
ghost use Rattle.fnl_markup.specs.Tags.{plain_attribute};
ghost use Rattle.fnl_expr.specs.Operators as meant;

use crate::attributes::given;
use crate::kind::is;
use cal_ast::{BinOp, PrefixOp};
use fnl_markup::Attribute;

/// The binary operator that attributes give.
pub fn binary_given(attributes: &[Attribute]) -> Option<BinOp>
    ensures { result ≡ meant.binary_given (map plain_attribute attributes.now) }
{
    binary_named(&given(attributes, "name")?.value)
}

/// The prefix that attributes give.
pub fn prefix_given(attributes: &[Attribute]) -> Option<PrefixOp>
    ensures { result ≡ meant.prefix_given (map plain_attribute attributes.now) }
{
    prefix_named(&given(attributes, "name")?.value)
}

fn prefix_named(text: &[u8]) -> Option<PrefixOp>
    ensures { result ≡ meant.prefix_named text.now }
{
    if is(text, "not") {
        Some(PrefixOp::Not)
    } else if is(text, "-") {
        Some(PrefixOp::Neg)
    } else if is(text, "~") {
        Some(PrefixOp::BitNot)
    } else {
        None
    }
}

fn binary_named(text: &[u8]) -> Option<BinOp>
    ensures { result ≡ meant.binary_named text.now }
{
    if is(text, "or") {
        Some(BinOp::Or)
    } else if is(text, "||") {
        Some(BinOp::Or)
    } else if is(text, "and") {
        Some(BinOp::And)
    } else if is(text, "&&") {
        Some(BinOp::And)
    } else if is(text, "|") {
        Some(BinOp::BitOr)
    } else if is(text, "^") {
        Some(BinOp::BitXor)
    } else if is(text, "&") {
        Some(BinOp::BitAnd)
    } else if is(text, "=") {
        Some(BinOp::Eq)
    } else if is(text, "!=") {
        Some(BinOp::Ne)
    } else if is(text, "<") {
        Some(BinOp::Lt)
    } else if is(text, "<=") {
        Some(BinOp::Le)
    } else if is(text, ">") {
        Some(BinOp::Gt)
    } else if is(text, ">=") {
        Some(BinOp::Ge)
    } else if is(text, "<<") {
        Some(BinOp::Shl)
    } else if is(text, ">>") {
        Some(BinOp::Shr)
    } else if is(text, "+") {
        Some(BinOp::Add)
    } else if is(text, "-") {
        Some(BinOp::Sub)
    } else if is(text, "*") {
        Some(BinOp::Mul)
    } else if is(text, "/") {
        Some(BinOp::Div)
    } else if is(text, "div") {
        Some(BinOp::Div)
    } else if is(text, "mod") {
        Some(BinOp::Mod)
    } else {
        None
    }
}

/// The level of a binary operator, from 1 for the tightest to 10 for the loosest.
pub(crate) fn level(op: BinOp) -> u8
    ensures { result ≡ meant.level op }
{
    match op {
        BinOp::Or => 10,
        BinOp::And => 9,
        BinOp::BitOr => 8,
        BinOp::BitXor => 7,
        BinOp::BitAnd => 6,
        BinOp::Eq | BinOp::Ne => 5,
        BinOp::Lt | BinOp::Le | BinOp::Gt | BinOp::Ge => 4,
        BinOp::Shl | BinOp::Shr => 3,
        BinOp::Add | BinOp::Sub => 2,
        BinOp::Mul | BinOp::Div | BinOp::Mod => 1,
    }
}
